//! The values of nodes that are still to be read.

ghost use Rattle.std.specs.Prelude.{◌≡◌, ◌↔◌, [], ◌∷◌, Some, IsTrue, length, IfOk, IsSome, OnOk};
ghost use Rattle.std.specs.BTreeMap as tree;
ghost use Rattle.std.specs.Ordering.{nat_cmp};
ghost use Rattle.gv_terms.specs.Evaluation.{held, held_all, readers, AreHeld, Loses};
ghost use Rattle.gv_terms.specs.Meaning.{operate};
ghost use Rattle.gv_terms.specs.declared.operator.Operator.TheVariants as op;
ghost use Rattle.gv_terms.specs.Sorts.{arity};

use crate::operator::Operator;
use crate::term::Term;
use crate::value::Value;
use gv_base::NoMemory;
use std::alloc::Global;
use std::collections::BTreeMap;

/// The value of a node, and the last node that reads it.
#[derive(Debug, Drop)]
pub struct Kept {
    pub value: Value,
    pub last: u64,
}

/// Values by the numbers of their nodes.
pub type Live = BTreeMap<u64, Kept>;

// What is kept of a node.
fn entry_of(live: &Live, t: Term) -> &Kept
    requires { IsSome (tree.get nat_cmp live.now t.id) }
    ensures { tree.get nat_cmp live.now t.id ≡ Some result.now }
{
    match live.get(&t.id) {
        Some(kept) => kept,
        None => unreachable!(),
    }
}

// The value of a node.
fn value_of(live: &Live, t: Term) -> &Value
    requires { IsSome (tree.get nat_cmp live.now t.id) }
    ensures { result.now ≡ held live.now t.id }
{
    &entry_of(live, t).value
}

// The value of a node for a reader that may keep it: the value itself for its last reader, else a copy.
fn take(alloc: Global, live: &mut Live, t: Term, reader: u64) -> Result<Value, NoMemory>
    requires { IsSome (tree.get nat_cmp live.old t.id) }
    ensures value { IfOk result (λ v. v ≡ held live.old t.id) }
    ensures loses { Loses reader live.old live.new }
{
    let here = entry_of(live, t);
    if here.last != reader {
        return here.value.copy(alloc);
    }
    match live.remove(&t.id) {
        Some(kept) => Ok(kept.value),
        None => unreachable!(),
    }
}

// Whether this reader is the last of what is kept of a node.
fn is_last(live: &Live, t: Term, reader: u64) -> bool
    ensures { IsTrue result ↔ (readers live.now t.id ≡ Some reader) }
{
    match live.get(&t.id) {
        Some(kept) => kept.last == reader,
        None => false,
    }
}

// Gives up the values that this reader reads last.
fn give_up(live: &mut Live, parts: &[Term], reader: u64)
    ensures { Loses reader live.old live.new }
{
    for part in parts {
        if is_last(live, *part, reader) {
            let _ = live.remove(&part.id);
        }
    }
}

// The value of a choice: of the second node or of the third.
fn choice(
    alloc: Global,
    live: &mut Live,
    a: Term,
    b: Term,
    c: Term,
    reader: u64,
) -> Result<Value, NoMemory>
    requires first { IsSome (tree.get nat_cmp live.old a.id) }
    requires second { IsSome (tree.get nat_cmp live.old b.id) }
    requires third { IsSome (tree.get nat_cmp live.old c.id) }
    ensures value { IfOk result (λ v. v ≡ operate op.If (held live.old a.id ∷ held live.old b.id ∷ held live.old c.id ∷ [])) }
    ensures loses { Loses reader live.old live.new }
{
    if value_of(live, a).truth() {
        take(alloc, live, b, reader)
    } else {
        take(alloc, live, c, reader)
    }
}

// The value of an operator over three nodes.
fn over_three(
    alloc: Global,
    live: &mut Live,
    operator: Operator,
    a: Term,
    b: Term,
    c: Term,
    reader: u64,
) -> Result<Value, NoMemory>
    requires counted { arity operator ≡ 3 }
    requires first { IsSome (tree.get nat_cmp live.old a.id) }
    requires second { IsSome (tree.get nat_cmp live.old b.id) }
    requires third { IsSome (tree.get nat_cmp live.old c.id) }
    ensures value { IfOk result (λ v. v ≡ operate operator (held live.old a.id ∷ held live.old b.id ∷ held live.old c.id ∷ [])) }
    ensures loses { Loses reader live.old live.new }
{
    match operator {
        Operator::If => choice(alloc, live, a, b, c, reader),
        _ => operator.over_three(
            alloc,
            value_of(live, a),
            value_of(live, b),
            value_of(live, c),
        ),
    }
}

// The value of an operator over nodes.
fn over(
    alloc: Global,
    live: &mut Live,
    operator: Operator,
    parts: &[Term],
    reader: u64,
) -> Result<Value, NoMemory>
    requires counted { length parts.now ≡ arity operator }
    requires there { AreHeld live.old parts.now }
    ensures value { IfOk result (λ v. v ≡ operate operator (held_all live.old parts.now)) }
    ensures loses { Loses reader live.old live.new }
{
    match parts {
        [] => Ok(operator.constant()),
        [a] => operator.over_one(alloc, value_of(live, *a)),
        [a, b] => operator.over_two(alloc, value_of(live, *a), value_of(live, *b)),
        [a, b, c] => over_three(alloc, live, operator, *a, *b, *c, reader),
        _ => Ok(Value::Unit),
    }
}

/// The value of an operator over nodes, whose values are given up where this is their last reader. What is
/// chosen is taken and not copied there.
pub fn operated(
    alloc: Global,
    live: &mut Live,
    operator: Operator,
    parts: &[Term],
    reader: u64,
) -> Result<Value, NoMemory>
    requires counted { length parts.now ≡ arity operator }
    requires there { AreHeld live.old parts.now }
    ensures value { IfOk result (λ v. v ≡ operate operator (held_all live.old parts.now)) }
    ensures loses { OnOk result (Loses reader live.old live.new) }
{
    let value = over(alloc, live, operator, parts, reader)?;
    give_up(live, parts, reader);
    Ok(value)
}

/// Keeps the value of a node until its last reader.
pub fn keep(live: &mut Live, number: u64, value: Value, last: u64) -> Result<(), NoMemory>
    ensures { OnOk result (tree.Updates nat_cmp live.old live.new number (Some (record { value = value; last = last }))) }
{
    let _ = live.insert(number, Kept { value, last })?;
    Ok(())
}
