//! What a crash keeps, what may be copied, and what holds no token: of atoms, from what is noted of each predicate.

ghost use Rattle.std.specs.Prelude.{◌≡◌, IfOk};
ghost use Rattle.gv_asserts.specs.Kinds as spec;
ghost use Rattle.gv_asserts.specs.declared.quality.Quality.TheVariants as quality;

use crate::quality::{Kept, Quality};
use gv_base::NoMemory;
use gv_commands::{Atom, Case, Item, Pred, Simple};
use std::alloc::Global;

// What is noted of a predicate.
fn noted(quality: Quality, table: &[Kept], pred: u32) -> bool
    ensures { result ≡ spec.noted_at quality table.now pred }
{
    match table.get(pred as usize) {
        None => true,
        Some(kept) => match quality {
            Quality::Durable => kept.durable,
            Quality::Persistent => kept.persistent,
            Quality::TokenFree => kept.token_free,
        },
    }
}

// Whether a crash keeps what an atom names.
fn is_durable<T>(table: &[Kept], atom: &Simple<T>) -> bool
    ensures { result ≡ spec.simple_keeps quality.Durable table.now atom.now }
{
    match atom {
        Simple::Master { .. }
        | Simple::Down { .. }
        | Simple::Field { .. }
        | Simple::Bmaster { .. }
        | Simple::Token { .. } => true,
        Simple::Instance(inst) => noted(Quality::Durable, table, inst.pred),
        _ => false,
    }
}

// Whether what an atom names may be copied.
fn is_persistent<T>(table: &[Kept], atom: &Simple<T>) -> bool
    ensures { result ≡ spec.simple_keeps quality.Persistent table.now atom.now }
{
    match atom {
        Simple::Ro { .. } | Simple::Roslice { .. } | Simple::Lock { .. } | Simple::Down { .. } =>
            true,
        Simple::Instance(inst) => noted(Quality::Persistent, table, inst.pred),
        _ => false,
    }
}

// Whether what an atom names is no token.
fn is_token_free<T>(table: &[Kept], atom: &Simple<T>) -> bool
    ensures { result ≡ spec.simple_keeps quality.TokenFree table.now atom.now }
{
    match atom {
        Simple::Token { .. } => false,
        Simple::Instance(inst) => noted(Quality::TokenFree, table, inst.pred),
        _ => true,
    }
}

fn simple_keeps<T>(quality: Quality, table: &[Kept], atom: &Simple<T>) -> bool
    ensures { result ≡ spec.simple_keeps quality table.now atom.now }
{
    match quality {
        Quality::Durable => is_durable(table, atom),
        Quality::Persistent => is_persistent(table, atom),
        Quality::TokenFree => is_token_free(table, atom),
    }
}

/// Whether all that an atom names has a quality, where this is what is noted of each predicate.
pub(crate) fn atom_keeps<T>(quality: Quality, table: &[Kept], atom: &Atom<T>) -> bool
    ensures { result ≡ spec.atom_keeps quality table.now atom.now }
{
    match atom {
        Atom::Simple(simple) => simple_keeps(quality, table, simple),
        Atom::Each(each) => simple_keeps(quality, table, &each.body),
    }
}

fn item_keeps(quality: Quality, table: &[Kept], item: &Item) -> bool
    ensures { result ≡ spec.item_keeps quality table.now item.now }
{
    match item {
        Item::Fact(_) => true,
        Item::Atom(atom) => atom_keeps(quality, table, atom),
    }
}

fn case_keeps(quality: Quality, table: &[Kept], case: &Case) -> bool
    ensures { result ≡ spec.case_keeps quality table.now case.now }
{
    for item in case.items.as_slice() {
        if !item_keeps(quality, table, item) {
            return false;
        }
    }
    true
}

fn pred_keeps(quality: Quality, table: &[Kept], pred: &Pred) -> bool
    ensures { result ≡ spec.pred_keeps quality table.now pred.now }
{
    for case in pred.cases.as_slice() {
        if !case_keeps(quality, table, case) {
            return false;
        }
    }
    true
}

fn kept_of(table: &[Kept], pred: &Pred) -> Kept
    ensures { result ≡ spec.kept_of table.now pred.now }
{
    Kept {
        durable: pred_keeps(Quality::Durable, table, pred),
        persistent: pred_keeps(Quality::Persistent, table, pred),
        token_free: pred_keeps(Quality::TokenFree, table, pred),
    }
}

/// What is to be noted of predicates, of each from those before it, in one pass over what they say.
pub(crate) fn table_of(alloc: Global, preds: &[Pred]) -> Result<Vec<Kept>, NoMemory>
    ensures { IfOk result (λ v. v.items ≡ spec.table_of preds.now) }
{
    let mut table = Vec::new(alloc);
    let mut left = preds;
    while let [pred, rest @ ..] = left {
        let kept = kept_of(table.as_slice(), pred);
        table.push(kept)?;
        left = rest;
    }
    Ok(table)
}
