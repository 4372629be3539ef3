//! A search over what a number leads to.

ghost use Rattle.std.specs.Prelude.{◌≡◌, ◌<◌, ◌+◌, [], ◌∷◌, true, false, length, IfOk, OnOk};
ghost use Rattle.gv_cycles.specs.Leading.{lists_of};
ghost use Rattle.gv_cycles.specs.Search.{is_new_in, seen_count};
ghost use Rattle.gv_leading.specs.Back.{seen_with, waiting_with, IsKnown, IsSpread, LeadsWithin};

use gv_base::NoMemory;

/// Which numbers a search has seen, and which of them wait to be looked at.
#[derive(Drop)]
pub(crate) struct Spread {
    pub(crate) is_seen: Vec<bool>,
    pub(crate) waiting: Vec<usize>,
}

// It has a row, and wasn't seen.
fn is_new(is_seen: &[bool], number: usize) -> bool
    ensures { result ≡ is_new_in is_seen.now number }
{
    match is_seen.get(number) {
        Some(is_seen) => !*is_seen,
        None => false,
    }
}

impl Spread {
    /// Sees a number.
    pub(crate) fn see(&mut self, number: usize) -> Result<(), NoMemory>
        ensures seen { OnOk result (self.new.is_seen.items ≡ seen_with self.old.is_seen.items number) }
        ensures waiting { OnOk result (self.new.waiting.items ≡ waiting_with self.old.is_seen.items self.old.waiting.items number) }
    {
        if is_new(&self.is_seen, number) {
            self.waiting.push(number)?;
            self.is_seen[number] = true;
        }
        Ok(())
    }

    /// Sees all that a number names which is looked at: whether the search began at one of them.
    pub(crate) fn look_at(
        &mut self,
        rows: &[Vec<u32>],
        number: usize,
        start: usize,
    ) -> Result<bool, NoMemory>
        requires within { number < length rows.now }
        requires spread { IsSpread (lists_of rows.now) start (number ∷ []) self.old.is_seen.items self.old.waiting.items }
        requires known { IsKnown start self.old.is_seen.items number }
        ensures back { IfOk result (λ is_back. is_back ≡ true → LeadsWithin (length (lists_of rows.now)) (lists_of rows.now) start start) }
        ensures spread { IfOk result (λ is_back. is_back ≡ false → IsSpread (lists_of rows.now) start [] self.new.is_seen.items self.new.waiting.items) }
        ensures counted { IfOk result (λ is_back. is_back ≡ false → length self.new.waiting.items + seen_count self.old.is_seen.items ≡ length self.old.waiting.items + seen_count self.new.is_seen.items) }
    {
        let row = &rows[number];
        let mut at = 0;
        while at < row.len() {
            let named = row[at] as usize;
            if named == start {
                return Ok(true);
            }
            self.see(named)?;
            at += 1;
        }
        Ok(false)
    }
}
