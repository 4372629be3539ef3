//! Two faults at one place, of which the lower number counts; a name without bytes; nodes with a wrong number of parts; and
//! places that lack those of the parts.

use gv_base::{Code, List, Name, NoMemory};
use gv_termread::{PlacedTerm, Places};
use gv_terms::{Operator, RawTerm, Scope, Sort, TermStore};
use gv_typing::{TermFault, make_term};
use std::alloc::Global;
use std::test::Fail;

// A node, written down with its place.
enum Written {
    Name(u32, &'static str),
    Apply(u32, Operator, &'static [Written]),
}

use Written::{Apply, Name as Called};

// A term whose variables are x of sort Word and p of sort Bool, and its first fault.
static ROWS: [(Written, u32, Code); 5] = [
    (
        Apply(
            0,
            Operator::Plus,
            &[
                Apply(2, Operator::Plus, &[Called(0, "x"), Called(1, "p")]),
                Called(2, "u"),
            ],
        ),
        2,
        Code::Undeclared,
    ),
    (
        Apply(
            0,
            Operator::Plus,
            &[
                Called(2, "u"),
                Apply(2, Operator::Plus, &[Called(0, "x"), Called(1, "p")]),
            ],
        ),
        2,
        Code::Undeclared,
    ),
    (Called(1, ""), 1, Code::Undeclared),
    (
        Apply(0, Operator::Plus, &[Called(0, "x")]),
        0,
        Code::WrongType,
    ),
    (
        Apply(0, Operator::True, &[Called(0, "x")]),
        0,
        Code::WrongType,
    ),
];

fn name(alloc: Global, text: &str) -> Result<Name, NoMemory> {
    Name::from_slice(alloc, text.as_bytes())
}

fn variables(alloc: Global) -> Result<Scope, NoMemory> {
    let mut scope = Scope::new(alloc);
    scope.declare(name(alloc, "x")?, Sort::Word)?;
    scope.declare(name(alloc, "p")?, Sort::Bool)?;
    Ok(scope)
}

fn term(alloc: Global, written: &Written) -> Result<RawTerm, NoMemory> {
    match written {
        Called(_, text) => Ok(RawTerm::Variable(name(alloc, *text)?)),
        Apply(_, operator, parts) => {
            let mut terms = Vec::new(alloc);
            for part in *parts {
                terms.push(term(alloc, part)?)?;
            }
            Ok(RawTerm::Apply(*operator, List::from_vec(terms)))
        }
    }
}

fn places(alloc: Global, written: &Written) -> Result<Places, NoMemory> {
    match written {
        Called(start, _) => Ok(Places::At(*start, List::new(alloc))),
        Apply(start, _, parts) => {
            let mut below = Vec::new(alloc);
            for part in *parts {
                below.push(places(alloc, part)?)?;
            }
            Ok(Places::At(*start, List::from_vec(below)))
        }
    }
}

// The first fault of a term.
fn fault_of(alloc: Global, term: &PlacedTerm) -> Result<Option<(u32, Code)>, NoMemory> {
    let scope = variables(alloc)?;
    let mut store = TermStore::new(alloc)?;
    match make_term(alloc, &mut store, &scope, term) {
        Ok(_) => Ok(None),
        Err(TermFault::At { start, code }) => Ok(Some((start, code))),
        Err(TermFault::NoMemory) => Err(NoMemory),
    }
}

#[test]
fn places_decide_and_then_numbers(rt: HostRuntime) -> Result<(), Fail> {
    let alloc = rt.alloc();
    for (written, start, code) in &ROWS {
        let term = PlacedTerm {
            start: 0,
            term: term(alloc, written)?,
            places: places(alloc, written)?,
        };
        assert_eq!(rt; fault_of(alloc, &term)?, Some((*start, *code)));
    }
    Ok(())
}

// A part whose place isn't told begins where its node does.
#[test]
fn a_part_without_a_place_begins_where_its_node_does(rt: HostRuntime) -> Result<(), Fail> {
    let alloc = rt.alloc();
    let parts = vec![in alloc; RawTerm::Variable(name(alloc, "u")?)]?;
    let term = PlacedTerm {
        start: 3,
        term: RawTerm::Apply(Operator::Not, List::from_vec(parts)),
        places: Places::At(3, List::new(alloc)),
    };
    assert_eq!(rt; fault_of(alloc, &term)?, Some((3, Code::Undeclared)));
    Ok(())
}
