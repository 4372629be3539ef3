//! Keys of terms: numbers that are equal where the trees are, and seldom otherwise.

ghost use Rattle.std.specs.Prelude.{◌<◌, length};

use gv_base::Name;
use gv_terms::{Head, Operator, Term, TermStore};

// How deep a key looks into a term, so that it takes a bounded time however often a term has one part.
const DEPTH: u32 = 8;

// A key with a number more.
pub(crate) fn mixed(key: u64, more: u64) -> u64 {
    (key ^ more)
        .wrapping_mul(0x9E37_79B9_7F4A_7C15)
        .rotate_left(29)
}

fn of_name(name: &Name) -> u64 {
    let mut key = 1;
    for byte in name.as_slice() {
        key = mixed(key, *byte as u64);
    }
    key
}

// Of the operators that facts have most often at their root, or with equal parts; the others may share one.
fn of_operator(operator: Operator) -> u64 {
    match operator {
        Operator::Number(number) => mixed(2, number),
        Operator::Not => 3,
        Operator::And => 4,
        Operator::Or => 5,
        Operator::Imp => 6,
        Operator::Equal => 7,
        Operator::Less => 8,
        Operator::AtMost => 9,
        Operator::Plus => 10,
        Operator::Minus => 11,
        Operator::Fits => 12,
        Operator::Len => 13,
        Operator::At => 14,
        Operator::Has => 15,
        Operator::Get => 16,
        _ => 17,
    }
}

fn of_head(head: &Head) -> u64 {
    match head {
        Head::Variable { name, .. } => of_name(name),
        Head::Apply(operator) => of_operator(*operator),
    }
}

// The key of what is not deeper than so many parts in one another.
fn key_to(store: &TermStore, term: Term, depth: u32) -> u64
    requires { term.id < length store.now }
{
    let mut key = of_head(store.head_of(term));
    if depth == 0 {
        return key;
    }
    let parts = store.parts_of(term);
    for i in 0..parts.len() {
        key = mixed(key, key_to(store, parts[i], depth - 1));
    }
    key
}

/// The key of a term.
pub(crate) fn key_of(store: &TermStore, term: Term) -> u64
    requires { term.id < length store.now }
{
    key_to(store, term, DEPTH)
}

/// The key of the equation of two terms.
pub(crate) fn key_of_equation(store: &TermStore, a: Term, b: Term) -> u64
    requires first { a.id < length store.now }
    requires second { b.id < length store.now }
{
    let first = mixed(of_operator(Operator::Equal), key_to(store, a, DEPTH - 1));
    mixed(first, key_to(store, b, DEPTH - 1))
}
