//! Makes facts and shows formulas from them by certificates, for bench/certificates to time: cert_bench WHAT COUNT HAVES.
//!
//! COUNT facts are given, `x0 < 5` and so on with a variable for each, and HAVES formulas are shown and added to them. `known` shows
//! facts that are there, from the last; `turned` shows equations, `5 == x0`, of facts `x0 == 5`; `axiom` shows `!(x0 == 5)` by
//! an axiom; `linear` shows `x0 < 10`, by one row; `steps` shows one formula by HAVES lines, which are computed and known by turns;
//! `rows` shows HAVES formulas, each by a row for each fact, with the factor 0 for all but one.
#![tactic(auto)]

ghost use Rattle.std.specs.Prelude.{◌<◌, IfOk, length};
ghost use Rattle.gv_terms.specs.Store.{AreIn, Grows};

use anyhow::{Result, bail};
use gv_base::{List, Name};
use gv_certs::{Cert, Factored, Have};
use gv_have::{formula, have};
use gv_known::Facts;
use gv_terms::{Operator, RawTerm, Scope, Sort, TermStore};
use std::alloc::Global;
use std::env;

fn name(alloc: Global, number: u64) -> Result<Name> {
    let text = format!(in alloc; "x{number}")?;
    Ok(Name::from_slice(alloc, text.as_bytes())?)
}

fn scope_of(alloc: Global, count: u64) -> Result<Scope> {
    let mut scope = Scope::new(alloc);
    for number in 0..count {
        let _ = scope.declare(name(alloc, number)?, Sort::Word)?;
    }
    Ok(scope)
}

fn variable(alloc: Global, number: u64) -> Result<RawTerm> {
    Ok(RawTerm::Variable(name(alloc, number)?))
}

fn literal(alloc: Global, number: u64) -> RawTerm {
    RawTerm::Apply(Operator::Number(number), List::new(alloc))
}

fn over(alloc: Global, operator: Operator, a: RawTerm, b: RawTerm) -> Result<RawTerm> {
    let parts = vec![in alloc; a, b]?;
    Ok(RawTerm::Apply(operator, List::from_vec(parts)))
}

// The fact about the variable with a number.
fn fact(alloc: Global, what: &str, number: u64) -> Result<RawTerm> {
    let operator = match what {
        "turned" => Operator::Equal,
        _ => Operator::Less,
    };
    over(alloc, operator, variable(alloc, number)?, literal(alloc, 5))
}

// As many rows as facts, of which this one alone has a factor.
fn rows(alloc: Global, facts: u64, number: u64) -> Result<List<Factored>> {
    let mut rows = Vec::new(alloc);
    for row in 0..facts {
        let factor = if row == number { 1 } else { 0 };
        let formula = fact(alloc, "rows", row)?;
        rows.push(Factored { factor, formula })?;
    }
    Ok(List::from_vec(rows))
}

fn linear(alloc: Global, rows: List<Factored>) -> Cert {
    let sums = List::new(alloc);
    Cert::Linear { sums, rows }
}

// A line that is computed, or one that is known from the line before.
fn line(alloc: Global, number: u64) -> Result<Have> {
    let shown = number / 2;
    let formula = over(
        alloc,
        Operator::AtMost,
        literal(alloc, shown),
        literal(alloc, shown),
    )?;
    let cert = if number % 2 == 0 {
        Cert::Compute
    } else {
        Cert::Known
    };
    Ok(Have { formula, cert })
}

fn steps(alloc: Global, lines: u64) -> Result<Cert> {
    let mut steps = Vec::new(alloc);
    for number in 0..lines {
        steps.push(line(alloc, number)?)?;
    }
    let steps = List::from_vec(steps);
    let last = Box::new(alloc, Cert::Known)?;
    Ok(Cert::Steps { steps, last })
}

// What is to be shown about the variable with a number, and how.
fn command(
    alloc: Global,
    what: &str,
    facts: u64,
    haves: u64,
    number: u64,
) -> Result<(RawTerm, Cert)> {
    let of = variable(alloc, number)?;
    match what {
        "known" => Ok((fact(alloc, what, number)?, Cert::Known)),
        "turned" => {
            let goal = over(alloc, Operator::Equal, literal(alloc, 5), of)?;
            Ok((goal, Cert::Known))
        }
        "axiom" => {
            let equal = over(alloc, Operator::Equal, of, literal(alloc, 5))?;
            let goal = RawTerm::Apply(Operator::Not, List::from_vec(vec![in alloc; equal]?));
            let parts = vec![in alloc; variable(alloc, number)?, literal(alloc, 5)]?;
            let parts = List::from_vec(parts);
            Ok((goal, Cert::Axiom { number: 17, parts }))
        }
        "linear" => {
            let formula = fact(alloc, what, number)?;
            let rows = vec![in alloc; Factored { factor: 1, formula }]?;
            let goal = over(alloc, Operator::Less, of, literal(alloc, 10))?;
            Ok((goal, linear(alloc, List::from_vec(rows))))
        }
        "rows" => {
            let goal = over(alloc, Operator::Less, of, literal(alloc, 10))?;
            Ok((goal, linear(alloc, rows(alloc, facts, number)?)))
        }
        "steps" => Ok((fact(alloc, what, number)?, steps(alloc, haves)?)),
        _ => bail!("cert_bench known|turned|axiom|linear|steps|rows COUNT HAVES"),
    }
}

#[tactic(auto, using(gv_terms::proofs::Grown::one_more_in))]
fn given(
    alloc: Global,
    store: &mut TermStore,
    scope: &Scope,
    what: &str,
    count: u64,
) -> Result<Facts>
    ensures { IfOk result (λ v. AreIn store.new v) }
{
    let mut facts = Facts::new(alloc);
    for number in 0..count {
        let raw = fact(alloc, what, number)?;
        let Ok(made) = formula(alloc, store, scope, &raw) else {
            bail!("a fact that is no formula");
        };
        facts.push(store, made)?;
    }
    Ok(facts)
}

// How many facts there are once all is shown.
fn shown(alloc: Global, what: &str, count: u64, haves: u64) -> Result<usize> {
    if count < 1 {
        bail!("at least one fact");
    }
    let mut store = TermStore::new(alloc)?;
    let scope = scope_of(alloc, count)?;
    let mut facts = given(alloc, &mut store, &scope, what, count)?;
    let commands = if what == "steps" { 1 } else { haves };
    for at in 0..commands {
        let number = (count - 1).wrapping_sub(at) % count;
        let (goal, cert) = command(alloc, what, count, haves, number)?;
        if have(alloc, &mut store, &scope, &mut facts, &goal, &cert).is_err() {
            bail!("a formula that is not shown");
        }
    }
    Ok(facts.len())
}

fn main(rt: HostRuntime) -> Result<()> {
    let alloc = rt.alloc();
    let mut words = env::args(&rt)?.skip(1);
    let (Some(what), Some(count), Some(haves)) = (words.next(), words.next(), words.next()) else {
        bail!("cert_bench known|turned|axiom|linear|steps|rows COUNT HAVES");
    };
    let count = count.as_str().parse::<u64>()?;
    let haves = haves.as_str().parse::<u64>()?;
    println!(&rt; "{} facts", shown(alloc, what.as_str(), count, haves)?)?;
    Ok(())
}
