//! Summands by the numbers of their unknowns, and what they come to in a row.

ghost use Rattle.std.specs.Prelude.{◌≡◌, ℕ, ◌<◌, ◌≤◌, ◌^◌, ◌-ℤ◌, pos, length, map, IfOk};
ghost use Rattle.gv_terms.specs.Store.{trees_at, AreIn};
ghost use Rattle.gv_certs.specs.Sums as spec;
ghost use Rattle.gv_sums.specs.Reading.{sign_of, numbered_at, coefficient_in, constant_in, terms_in, AreItems, AreWords};

use crate::summand::{Numbered, Summand};
use crate::unknowns::{number_in, place_in};
use gv_base::NoMemory;
use gv_terms::{Term, TermStore};
use std::alloc::Global;

/// The summands, each with its number or the place of its unknown.
pub(crate) fn numbered(
    alloc: Global,
    store: &TermStore,
    unknowns: &[Term],
    summands: &[Summand],
) -> Result<Vec<Numbered>, NoMemory>
    requires unknowns { AreIn store.now unknowns.now }
    requires summands { AreIn store.now (terms_in summands.now) }
    ensures told { IfOk result (λ v. v.items ≡ map (numbered_at store.now (trees_at store.now unknowns.now)) summands.now) }
    ensures words { IfOk result (λ v. AreWords v.items) }
{
    store.numbers_are_words();
    let mut all = Vec::new(alloc);
    for i in 0..summands.len() {
        let summand = summands[i];
        all.push(Numbered {
            negative: summand.negative,
            number: number_in(store, summand.term),
            place: place_in(store, unknowns, summand.term),
        })?;
    }
    Ok(all)
}

impl Numbered {
    // 1, or -1 where it is taken away.
    fn sign(self) -> i128
        ensures { result ≡ sign_of self.negative }
    {
        if self.negative { -1 } else { 1 }
    }

    // What it adds to the coefficient of an unknown.
    fn to_coefficient(self, unknown: usize) -> i128
        ensures { result ≡ spec.to_coefficient unknown (sign_of self.negative) self.place self.number }
    {
        if self.number.is_none() && self.place == unknown {
            self.sign()
        } else {
            0
        }
    }

    // The place of its unknown, where that is from one on and before another; else the other.
    fn earlier(self, from: u32, next: u32) -> u32
        requires { from ≤ next }
        ensures low { from ≤ result }
        ensures high { result ≤ next }
        ensures between { (c : ℕ) → from ≤ c → c < result → spec.to_coefficient c (sign_of self.negative) self.place self.number ≡ pos 0 }
    {
        if self.number.is_none() && from as usize <= self.place && self.place < next as usize {
            self.place as u32
        } else {
            next
        }
    }

    // What it adds to the constant.
    fn to_constant(self) -> i128
        ensures { result ≡ spec.to_constant (sign_of self.negative) self.number }
    {
        match self.number {
            Some(number) if self.negative => -(number as i128),
            Some(number) => number as i128,
            None => 0,
        }
    }
}

// The coefficient of an unknown.
fn coefficient(summands: &[Numbered], unknown: usize) -> i128
    requires { length summands.now < 2 ^ 33 }
    ensures { result ≡ coefficient_in unknown summands.now }
{
    let mut sum: i128 = 0;
    for i in 0..summands.len() {
        sum = sum + summands[i].to_coefficient(unknown);
    }
    sum
}

// The sum of the literals.
fn constant(summands: &[Numbered]) -> i128
    requires few { length summands.now < 2 ^ 33 }
    requires words { AreWords summands.now }
    ensures { result ≡ constant_in summands.now }
{
    let mut sum: i128 = 0;
    for i in 0..summands.len() {
        sum = sum + summands[i].to_constant();
    }
    sum
}

/// The constant of a row, which is one less where the row is `strict`.
pub(crate) fn row_constant(summands: &[Numbered], strict: bool) -> i128
    requires few { length summands.now < 2 ^ 33 }
    requires words { AreWords summands.now }
    ensures { result ≡ constant_in summands.now -ℤ spec.one_if strict }
{
    let sum = constant(summands);
    if strict { sum - 1 } else { sum }
}

// The next unknown from one on that is among the summands, or how many unknowns there are.
fn next_unknown(summands: &[Numbered], unknowns: u32, from: u32) -> u32
    requires { from ≤ unknowns }
    ensures low { from ≤ result }
    ensures high { result ≤ unknowns }
    ensures between { (c : ℕ) → from ≤ c → c < result → coefficient_in c summands.now ≡ pos 0 }
{
    let mut next = unknowns;
    for i in 0..summands.len() {
        next = summands[i].earlier(from, next);
    }
    next
}

/// The unknowns that are among the summands, in order, each with its coefficient.
pub(crate) fn items(
    alloc: Global,
    summands: &[Numbered],
    unknowns: u32,
) -> Result<Vec<(u32, i128)>, NoMemory>
    requires { length summands.now < 2 ^ 33 }
    ensures { IfOk result (λ v. AreItems unknowns summands.now v.items) }
{
    let mut items = Vec::new(alloc);
    let mut unknown = next_unknown(summands, unknowns, 0);
    while unknown < unknowns {
        items.push((unknown, coefficient(summands, unknown as usize)))?;
        unknown = next_unknown(summands, unknowns, unknown + 1);
    }
    Ok(items)
}
