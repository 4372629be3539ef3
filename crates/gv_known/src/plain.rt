//! Terms without variables, over words and truth values alone.

ghost use Rattle.std.specs.Prelude.{◌≡◌, ◌<◌, length, IfOk};
ghost use Rattle.gv_terms.specs.Store.{tree_at};
ghost use Rattle.gv_terms.specs.Values.{truth_of};
ghost use Rattle.gv_certs.specs.Known as spec;

use gv_base::{List, NoMemory};
use gv_terms::{Env, Head, Operator, Term, TermStore, Value, eval};
use std::alloc::Global;

// Whether an operator is one over words and truth values.
fn is_plain_operator(operator: Operator) -> bool
    ensures { result ≡ spec.is_plain_operator operator }
{
    match operator {
        Operator::Number(_)
        | Operator::True
        | Operator::False
        | Operator::Not
        | Operator::Complement
        | Operator::Or
        | Operator::And
        | Operator::Equal
        | Operator::Less
        | Operator::AtMost
        | Operator::Plus
        | Operator::Minus
        | Operator::BitOr
        | Operator::BitXor
        | Operator::Times
        | Operator::Divide
        | Operator::Remainder
        | Operator::ShiftLeft
        | Operator::ShiftRight
        | Operator::BitAnd
        | Operator::BitClear
        | Operator::If
        | Operator::Imp
        | Operator::Fits => true,
        _ => false,
    }
}

fn is_plain_head(head: &Head) -> bool
    ensures { result ≡ spec.is_plain_head head.now }
{
    match head {
        Head::Variable { .. } => false,
        Head::Apply(operator) => is_plain_operator(*operator),
    }
}

// Whether a term has no variable, and no other operators.
fn is_plain(store: &TermStore, term: Term) -> bool
    requires { term.id < length store.now }
    ensures { result ≡ spec.is_plain (tree_at store.now term.id) }
{
    if !is_plain_head(store.head_of(term)) {
        return false;
    }
    let parts = store.parts_of(term);
    for i in 0..parts.len() {
        if !is_plain(store, parts[i]) {
            return false;
        }
    }
    true
}

fn is_true(value: &Value) -> bool
    ensures { result ≡ truth_of value.now }
{
    match value {
        Value::Bool(truth) => *truth,
        _ => false,
    }
}

/// Whether a term has no variable, is over words and truth values alone, and is true.
pub fn computes(alloc: Global, store: &TermStore, term: Term) -> Result<bool, NoMemory>
    requires { term.id < length store.now }
    ensures { IfOk result (λ b. b ≡ spec.computes (tree_at store.now term.id)) }
{
    if !is_plain(store, term) {
        return Ok(false);
    }
    let none = Env {
        bindings: List::new(alloc),
    };
    let value = eval(alloc, store, term, &none)?;
    Ok(is_true(&value))
}
