//! A counter that contracts alone see.

ghost use Rattle.std.specs.Prelude.{◌≡◌, ◌+◌, ◌<◌};

use std::marker::Model;
use std::sync::ledger::{Blank, Book, Ledger, Share};

/// A counter for the ledger `L`, which contracts see as its number. It takes no room at run time,
/// and no value that runs depends on it. This project's own.
#[derive(Drop)]
pub struct Steps<L: Ledger> {
    ticks: Book<L>,
    share: Share<L>,
}

impl<L: Ledger> Model for Steps<L> {
    ghost use Rattle.std.specs.Prelude.{ℕ, ◌<◌};

    ghost Value = { ℕ };

    ghost view = { λ s. s.ticks.total };

    ghost invariant = { λ s. 0 < s.share.parts };
}

impl<L: Ledger> Steps<L> {
    /// The counter of a new ledger, at 0.
    pub fn new(blank: Blank) -> Steps<L>
        requires name { blank.name ≡ L.name }
        requires parts { blank.parts ≡ L.parts }
        requires some_part { 0 < blank.parts }
        ensures { result ≡ 0 }
    {
        let (ticks, share) = blank.open::<L>();
        Steps { ticks, share }
    }

    /// Adds one.
    pub fn tick(&mut self)
        ensures { self.new ≡ self.old + 1 }
    {
        let Steps { ticks, share } = self;
        ticks.add(share, 1);
    }
}
