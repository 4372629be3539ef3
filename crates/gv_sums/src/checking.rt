//! Linear certificates over terms of a store.

ghost use Rattle.std.specs.Prelude.{◌≡◌, ◌<◌, ◌+◌, length, map, true, Some, IfOk, IfErr};
ghost use Rattle.std.specs.List.{All};
ghost use Rattle.gv_terms.specs.Store.{tree_at, trees_at, AreIn, Grows};
ghost use Rattle.gv_linear.specs.declared.answer.Linear.TheVariants as answers;
ghost use Rattle.gv_certs.specs.Sums as spec;
ghost use Rattle.gv_certs.specs.Proving as proving;
ghost use Rattle.gv_side.specs.Telling.{IsFault};
ghost use Rattle.gv_sums.specs.Reading.{row_at, formulas_in, sum_at, linear_at, factors_of, IsAnswerAt, comparison_at, comparisons_at, IsWithin};
ghost use Rattle.gv_sums.specs.Telling.{row_asks, IsShown, IsLaterFault, IsFaultOf, IsFailure};

use crate::comparison::{Compared, comparison_of, order_of};
use crate::factored::FactoredTerm;
use crate::rows::rows;
use crate::unknowns::unknowns_of;
use crate::whole_sums::ask_sums;
use gv_base::NoMemory;
use gv_certs::{Cause, RuleFault};
use gv_known::Facts;
use gv_linear::{Linear, check_linear};
use gv_side::ask_known;
use gv_terms::{Term, TermStore};
use std::alloc::Global;

// The comparison that a row is: its formula is known, or `NotKnown`, and a comparison, or `Mismatch`.
fn ask_row(
    alloc: Global,
    store: &TermStore,
    facts: &Facts,
    formula: Term,
) -> Result<Compared, RuleFault>
    requires facts { AreIn store.now facts.now }
    requires formula { formula.id < length store.now }
    ensures holds { IfOk result (λ _. proving.AllHold (row_asks (trees_at store.now facts.now) (tree_at store.now formula.id))) }
    ensures told { IfOk result (λ c. spec.comparison_of (tree_at store.now formula.id) ≡ Some (comparison_at store.now c)) }
    ensures within { IfOk result (IsWithin store.now) }
    ensures cause { IfErr result (IsFault (row_asks (trees_at store.now facts.now) (tree_at store.now formula.id))) }
{
    ask_known(alloc, store, facts, formula)?;
    match comparison_of(store, formula) {
        Some(comparison) => Ok(comparison),
        None => Err(RuleFault::Cause(Cause::Mismatch)),
    }
}

// The comparisons that the rows are.
fn ask_rows(
    alloc: Global,
    store: &TermStore,
    facts: &Facts,
    rows: &[FactoredTerm],
) -> Result<Vec<Compared>, RuleFault>
    requires facts { AreIn store.now facts.now }
    requires rows { AreIn store.now (formulas_in rows.now) }
    ensures holds { IfOk result (λ _. proving.AllHold (proving.row_premises (trees_at store.now facts.now) (map (row_at store.now) rows.now))) }
    ensures told { IfOk result (λ v. comparisons_at store.now v.items ≡ proving.comparisons (map (row_at store.now) rows.now)) }
    ensures length { IfOk result (λ v. length v.items ≡ length rows.now) }
    ensures within { IfOk result (λ v. All (IsWithin store.now) v.items) }
    ensures cause { IfErr result (IsFault (proving.row_premises (trees_at store.now facts.now) (map (row_at store.now) rows.now))) }
{
    let mut comparisons = Vec::new(alloc);
    for i in 0..rows.len() {
        comparisons.push(ask_row(alloc, store, facts, rows[i].formula)?)?;
    }
    Ok(comparisons)
}

// The factors of the rows, and 1 for the last row.
fn factors(alloc: Global, rows: &[FactoredTerm]) -> Result<Vec<i128>, NoMemory>
    ensures { IfOk result (λ v. v.items ≡ factors_of rows.now) }
{
    let mut factors = Vec::new(alloc);
    for i in 0..rows.len() {
        factors.push(rows[i].factor)?;
    }
    factors.push(1)?;
    Ok(factors)
}

// What the factors of rows and of one comparison more show. 2^32 rows or unknowns and more are want of memory.
fn answer(
    alloc: Global,
    store: &TermStore,
    sums: &[Term],
    comparisons: &[Compared],
    factored: &[FactoredTerm],
) -> Result<Linear, NoMemory>
    requires sums { AreIn store.now sums.now }
    requires within { All (IsWithin store.now) comparisons.now }
    requires lengths { length comparisons.now ≡ length factored.now + 1 }
    ensures narrow { IfOk result (λ _. proving.are_narrow_sums (trees_at store.now sums.now) (comparisons_at store.now comparisons.now) ≡ true) }
    ensures told { IfOk result (λ a. IsAnswerAt store.now sums.now comparisons.now factored.now a) }
{
    let unknowns = unknowns_of(alloc, store, sums, comparisons)?;
    if comparisons.len() > u32::MAX as usize || unknowns.len() > u32::MAX as usize {
        return Err(NoMemory);
    }
    let matrix = rows(alloc, store, sums, unknowns.as_slice(), comparisons)?;
    let factors = factors(alloc, factored)?;
    Ok(check_linear(matrix.as_slice(), factors.as_slice(), unknowns.len() as u32))
}

// Yes, or the cause of another answer.
fn told(answer: Linear) -> Result<(), RuleFault>
    ensures yes { IfOk result (λ _. answer ≡ answers.Yes) }
    ensures cause { IfErr result (IsFaultOf answer) }
{
    match answer {
        Linear::Yes => Ok(()),
        Linear::Negative { .. } => Err(RuleFault::Cause(Cause::Negative)),
        Linear::Wide { .. } => Err(RuleFault::Cause(Cause::Wide)),
        Linear::NotContradiction => Err(RuleFault::Cause(Cause::NotContradiction)),
    }
}

// What a linear certificate asks besides that the listed terms are sums.
fn sum_up(
    alloc: Global,
    store: &TermStore,
    facts: &Facts,
    goal: Term,
    sums: &[Term],
    rows: &[FactoredTerm],
) -> Result<(), RuleFault>
    requires facts { AreIn store.now facts.now }
    requires goal { goal.id < length store.now }
    requires sums { AreIn store.now sums.now }
    requires rows { AreIn store.now (formulas_in rows.now) }
    ensures holds { IfOk result (λ _. IsShown (trees_at store.now facts.now) (tree_at store.now goal.id) (sum_at store.now sums.now rows.now)) }
    ensures cause { IfErr result (IsLaterFault (trees_at store.now facts.now) (tree_at store.now goal.id) (sum_at store.now sums.now rows.now)) }
{
    let mut comparisons = ask_rows(alloc, store, facts, rows)?;
    let Some(order) = order_of(store, goal) else {
        return Err(RuleFault::Cause(Cause::Mismatch));
    };
    comparisons.push(order.denied())?;
    told(answer(alloc, store, sums, comparisons.as_slice(), rows)?)
}

/// The certificate that the goal, `a < b` or `a <= b`, follows from rows of whole numbers: `sums` are terms that are read as sums and
/// differences, `rows` known comparisons of words with their factors. Denied, the goal is one row more, with the factor 1, and the rows
/// times their factors are a contradiction. The first premise that fails gives the cause, in this order: each sum is one (`NotAPlus`);
/// each row is known (`NotKnown`) and a comparison (`Mismatch`); the goal is an order (`Mismatch`); then what the check of the factors
/// tells (`Negative`, `Wide`, `NotContradiction`). Coefficients and constants are summed in 128 bits and never leave them, since a term
/// that is the sum of 2^32 others or more is want of memory, and so are 2^32 rows or unknowns. The store only grows. This project's own.
pub fn linear(
    alloc: Global,
    store: &mut TermStore,
    facts: &Facts,
    goal: Term,
    sums: &[Term],
    rows: &[FactoredTerm],
) -> Result<(), RuleFault>
    requires facts { AreIn store.old facts.now }
    requires goal { goal.id < length store.old }
    requires sums { AreIn store.old sums.now }
    requires rows { AreIn store.old (formulas_in rows.now) }
    ensures holds { IfOk result (λ _. proving.Proves (trees_at store.old facts.now) (tree_at store.old goal.id) (linear_at store.old sums.now rows.now)) }
    ensures cause { IfErr result (IsFailure (trees_at store.old facts.now) (tree_at store.old goal.id) (linear_at store.old sums.now rows.now)) }
    ensures grows { Grows store.old store.new }
{
    ask_sums(alloc, store, facts, sums)?;
    sum_up(alloc, store, facts, goal, sums, rows)
}
