//! How what is made of an operand ends.

ghost use Rattle.std.specs.Prelude.{◌≡◌};
ghost use Rattle.gv_lang.specs.Plain.{tree_of};
ghost use Rattle.gv_lang.specs.Tree as lang;
ghost use Rattle.gv_lowerops.specs.Tails.{read_by};

use gv_base::Place;
use gv_lang::{Cmd, LocalKind, Pure};

/// A command that reads, but for the local that it sets. This project's own.
#[derive(Drop)]
pub enum Reading {
    /// `p.f`
    Load { p: Pure, of: u32, field: u32 },
    /// `s[i]`
    At { s: Pure, i: Pure },
    /// `a / b`
    Div { a: Pure, b: Pure },
    /// `a % b`
    Rem { a: Pure, b: Pure },
    /// `len(s)`
    Len { s: Pure },
    /// `s[a:b]`
    Sub { s: Pure, a: Pure, b: Pure },
}

/// How what is made of an operand ends: in an expression, in a read, of a value of this kind, that may set any local, or in a read of a
/// map, which sets a second one. This project's own.
#[derive(Drop)]
pub enum Last {
    Value(Pure),
    Reads(LocalKind, Reading),
    ReadsMap(Pure, Pure),
}

impl Reading {
    /// The command that sets this local.
    #[tactic(auto, using(gv_lang::proofs::Trees::commands))]
    pub fn into_command(self, x: u32, place: Place) -> Cmd
        ensures { tree_of result ≡ lang.Do (read_by self x) place }
    {
        match self {
            Reading::Load { p, of, field } => Cmd::Load {
                x,
                p,
                of,
                field,
                place,
            },
            Reading::At { s, i } => Cmd::At { x, s, i, place },
            Reading::Div { a, b } => Cmd::Div { x, a, b, place },
            Reading::Rem { a, b } => Cmd::Rem { x, a, b, place },
            Reading::Len { s } => Cmd::Len { x, s, place },
            Reading::Sub { s, a, b } => Cmd::Sub { x, s, a, b, place },
        }
    }
}
