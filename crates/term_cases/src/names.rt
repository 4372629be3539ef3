//! The names that a table's terms may use, and what a term gives: its value, or its first fault.

ghost use Rattle.std.specs.Prelude.{◌≤◌, length};

use crate::shown::{answer_text, sort_text};
use anyhow::{Result, bail};
use case_table::Meaning;
use gv_base::{Code, List, Name, NoMemory, Place, Refusal, SliceVal, place_of};
use gv_lex::lex;
use gv_termread::{PlacedTerm, Places, placed_term};
use gv_terms::{Binding, Env, ResolveFault, Scope, TermStore, Value, eval, resolve};
use std::alloc::Global;

/// The most bytes of a term.
const MOST: usize = 1 << 24;

/// Names with their values.
#[derive(Drop)]
pub(crate) struct Names {
    scope: Scope,
    env: Env,
}

fn refusal(place: Place, code: Code) -> Refusal {
    Refusal::At { place, code }
}

fn slice(object: u32, offset: u64, length: u64, capacity: u64) -> Value {
    Value::SliceS(SliceVal {
        object,
        offset,
        length,
        capacity,
    })
}

// The term that a text is.
fn read(alloc: Global, text: &[u8]) -> Result<PlacedTerm, Refusal>
    requires { length text.now ≤ MOST }
{
    let tokens = lex(alloc, text)?;
    let (term, next) = placed_term(alloc, text, tokens.as_slice(), 0, 0)?;
    match tokens.get(next as usize) {
        None => Ok(term),
        Some(token) => Err(refusal(
            place_of(text, token.start.min(text.len() as u32)),
            Code::Unexpected,
        )),
    }
}

// The byte at which the node at a path begins.
fn start_at(places: &Places, path: &[u64]) -> u32 {
    let mut here = places;
    for part in path {
        let Places::At(_, parts) = here;
        if let Some(next) = parts.get(*part as usize) {
            here = next;
        }
    }
    let Places::At(start, _) = here;
    *start
}

impl Names {
    // What no term without names has as its value: the references r1 to r9, the calls c1 to c9, a name and six slices.
    fn given(alloc: Global) -> Result<Names, NoMemory> {
        let scope = Scope::new(alloc);
        let bindings = List::new(alloc);
        let env = Env { bindings };
        let mut names = Names { scope, env };
        for number in 1..10 {
            let name = format!(in alloc; "r{number}")?;
            names.bind(alloc, name.as_bytes(), Value::Ref(number))?;
            let name = format!(in alloc; "c{number}")?;
            names.bind(alloc, name.as_bytes(), Value::Call(number))?;
        }
        names.bind(alloc, b"g1", Value::Name(Name::from_slice(alloc, b"g")?))?;
        names.bind(alloc, b"s1", slice(3, 1, 9, 12))?;
        names.bind(alloc, b"s2", slice(3, 1, 10, 12))?;
        names.bind(alloc, b"s3", slice(3, 1, 9, 13))?;
        names.bind(alloc, b"s4", slice(4, 1, 9, 12))?;
        names.bind(alloc, b"s5", slice(3, 2, 9, 12))?;
        names.bind(alloc, b"s6", slice(3, 1, 0, 0))?;
        Ok(names)
    }

    // Binds a name; one that is bound already stays as it is.
    fn bind(&mut self, alloc: Global, name: &[u8], value: Value) -> Result<(), NoMemory> {
        if let Some(sort) = value.sort() {
            self.scope.declare(Name::from_slice(alloc, name)?, sort)?;
        }
        let name = Name::from_slice(alloc, name)?;
        self.env.bindings.push(Binding { name, value })?;
        Ok(())
    }

    // The value of a term, or its refusal, with the place in the term.
    fn evaluate(&self, alloc: Global, text: &[u8]) -> Result<Value, Refusal> {
        if text.len() > MOST {
            return Err(refusal(place_of(text, 0), Code::TooLong));
        }
        let read = read(alloc, text)?;
        let mut store = TermStore::new(alloc)?;
        match resolve(alloc, &mut store, &self.scope, &read.term) {
            Ok(term) => Ok(eval(alloc, &store, term, &self.env)?),
            Err(ResolveFault::NoMemory) => Err(Refusal::NoMemory),
            Err(ResolveFault::At { path, code }) => {
                let start = start_at(&read.places, path.as_slice()).min(text.len() as u32);
                Err(refusal(place_of(text, start), code))
            }
        }
    }
}

// The name and the term of a line `let NAME = TERM`.
fn binding_of<'a>(line: &'a str) -> Option<(&'a str, &'a str)> {
    line.strip_prefix("let ")
        .and_then(|it| it.split_once(" = "))
}

impl Meaning for Names {
    fn new(alloc: Global) -> Result<Names> {
        Ok(Names::given(alloc)?)
    }

    fn take(&mut self, alloc: Global, line: &str) -> Result<bool> {
        let Some((name, term)) = binding_of(line) else {
            return Ok(false);
        };
        match self.evaluate(alloc, term.as_bytes()) {
            Ok(value) => self.bind(alloc, name.as_bytes(), value)?,
            Err(_) => bail!("no value: {line}"),
        }
        Ok(true)
    }

    fn other(&self, alloc: Global, text: &str, want: &str) -> Result<Option<String>> {
        let answer = self.evaluate(alloc, text.as_bytes());
        let shown = answer_text(alloc, &answer)?;
        let sort = sort_text(alloc, &answer)?;
        if shown.as_str() == want || sort.as_str() == want {
            return Ok(None);
        }
        Ok(Some(shown))
    }
}
