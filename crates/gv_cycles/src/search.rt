//! A search, depth first, with the numbers that are open in a list.

ghost use Rattle.std.specs.Prelude.{◌≡◌, ◌≤◌, ◌<◌, ◌+◌, ◌*◌, ℕ, ◌∷◌, [], true, length, reverse, slice_index_or, IfOk, OnOk};
ghost use Rattle.gv_cycles.specs.Leading.{lists_of};
ghost use Rattle.gv_cycles.specs.Search.{IsMoreSeen, IsNamedLast, IsPassed, IsSearched, IsSearchedBy, is_new_in};

use gv_base::NoMemory;
use std::alloc::Global;

/// A number whose row is gone through, up to a place in it.
#[derive(Clone, Copy)]
pub(crate) struct Open {
    pub(crate) number: usize,
    pub(crate) next: usize,
}

/// A search: which numbers it has seen, which of them are open, the last one last, and the others as they were done.
#[derive(Drop)]
pub(crate) struct Search {
    pub(crate) is_seen: Vec<bool>,
    pub(crate) path: Vec<Open>,
    pub(crate) order: Vec<usize>,
}

// It has a row, and wasn't seen.
fn is_new(is_seen: &[bool], number: usize) -> bool
    ensures { result ≡ is_new_in is_seen.now number }
{
    match is_seen.get(number) {
        Some(is_seen) => !*is_seen,
        None => false,
    }
}

// The place of the first new number of a row from a place on, and behind the row where there is none.
fn first_new(row: &[u32], from: usize, is_seen: &[bool]) -> usize
    ensures passed { IsPassed is_seen.now row.now from result }
    ensures found { result < length row.now → is_new_in is_seen.now (slice_index_or row.now result 0) ≡ true }
    ensures ended { length row.now ≤ result → IsPassed is_seen.now row.now from (length row.now) }
{
    let mut at = from;
    while at < row.len() {
        if is_new(is_seen, row[at] as usize) {
            return at;
        }
        at += 1;
    }
    at
}

impl Search {
    pub(crate) fn new(alloc: Global, rows: &[Vec<u32>]) -> Result<Search, NoMemory>
        ensures searched { IfOk result (λ search. IsSearched (lists_of rows.now) search) }
        ensures none { IfOk result (λ search. search.path.items ≡ []) }
    {
        Ok(Search {
            is_seen: vec![in alloc; false; rows.len()]?,
            path: Vec::new(alloc),
            order: Vec::new(alloc),
        })
    }

    // Opens a new number that the last open one names, where one is open.
    fn enter(&mut self, rows: &[Vec<u32>], number: usize) -> Result<(), NoMemory>
        requires searched { IsSearched (lists_of rows.now) self.old }
        requires new { is_new_in self.old.is_seen.items number ≡ true }
        requires named { IsNamedLast (lists_of rows.now) number (reverse self.old.path.items) }
        ensures searched { OnOk result (IsSearched (lists_of rows.now) self.new) }
        ensures more { OnOk result (IsMoreSeen self.old.is_seen.items self.new.is_seen.items) }
        ensures there { OnOk result (slice_index_or self.new.is_seen.items number true ≡ true) }
        ensures grown { OnOk result (length self.new.path.items ≡ length self.old.path.items + 1) }
        ensures order { OnOk result (self.new.order ≡ self.old.order) }
    {
        self.is_seen[number] = true;
        self.path.push(Open { number, next: 0 })?;
        Ok(())
    }

    // Goes on from a number that was opened last: to a new one that it names, or back from it.
    fn step(&mut self, rows: &[Vec<u32>], top: Open) -> Result<(), NoMemory>
        requires { IsSearchedBy (lists_of rows.now) self.old.is_seen.items (top ∷ reverse self.old.path.items) self.old.order.items }
        ensures searched { OnOk result (IsSearched (lists_of rows.now) self.new) }
        ensures more { OnOk result (IsMoreSeen self.old.is_seen.items self.new.is_seen.items) }
        ensures nearer { OnOk result (length self.old.path.items + 2 * length self.old.order.items + 2
            ≤ length self.new.path.items + 2 * length self.new.order.items) }
    {
        let row = &rows[top.number];
        let next = first_new(row, top.next, &self.is_seen);
        if next < row.len() {
            self.path.push(Open {
                number: top.number,
                next,
            })?;
            self.enter(rows, row[next] as usize)
        } else {
            self.order.push(top.number)?;
            Ok(())
        }
    }

    /// Sees all that a new number leads to, and that number.
    pub(crate) fn visit(&mut self, rows: &[Vec<u32>], root: usize) -> Result<(), NoMemory>
        requires searched { IsSearched (lists_of rows.now) self.old }
        requires none { self.old.path.items ≡ [] }
        requires new { is_new_in self.old.is_seen.items root ≡ true }
        ensures searched { OnOk result (IsSearched (lists_of rows.now) self.new) }
        ensures none { OnOk result (self.new.path.items ≡ []) }
        ensures more { OnOk result (IsMoreSeen self.old.is_seen.items self.new.is_seen.items) }
        ensures there { OnOk result (slice_index_or self.new.is_seen.items root true ≡ true) }
    {
        self.enter(rows, root)?;
        while let Some(top) = self.path.pop() {
            self.step(rows, top)?;
        }
        Ok(())
    }
}
