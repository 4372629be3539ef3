//! What control does at a command.

ghost use Rattle.std.specs.Prelude.{◌≡◌};
ghost use Rattle.gv_lang.specs.Plain.{tree_of};
ghost use Rattle.gv_lang.specs.Outlines.{sketch, sketch_of};

use crate::cmd::Cmd;

/// What control does at a command: it goes on to the next one, or takes one of two branches, enters
/// a loop's body, leaves a loop, repeats it, or returns. This project's own.
#[derive(Clone, Copy, Drop)]
pub enum Outline<'p> {
    Plain,
    If(&'p [Cmd], &'p [Cmd]),
    Loop(&'p [Cmd]),
    Break,
    Continue,
    Return,
}

impl Cmd {
    /// What control does at the command.
    #[tactic(auto, using(crate::proofs::Trees::commands))]
    pub fn outline(&self) -> Outline<'_>
        ensures { sketch_of result ≡ sketch (tree_of self.now) }
    {
        match self {
            Cmd::Let { .. } | Cmd::Div { .. } | Cmd::Rem { .. } | Cmd::New { .. } => Outline::Plain,
            Cmd::Load { .. } | Cmd::Store { .. } | Cmd::MakeSlice { .. } => Outline::Plain,
            Cmd::At { .. } | Cmd::Put { .. } | Cmd::Len { .. } | Cmd::NewMap { .. } =>
                Outline::Plain,
            Cmd::MapGet { .. } | Cmd::MapPut { .. } | Cmd::MapDelete { .. } => Outline::Plain,
            Cmd::NewMutex { .. } | Cmd::Lock { .. } | Cmd::Unlock { .. } => Outline::Plain,
            Cmd::DiskRead { .. } | Cmd::DiskRead2 { .. } => Outline::Plain,
            Cmd::DiskWrite { .. } | Cmd::DiskSize { .. } => Outline::Plain,
            Cmd::Get64 { .. } | Cmd::Put64 { .. } | Cmd::Sub { .. } => Outline::Plain,
            Cmd::Append { .. } | Cmd::Call { .. } | Cmd::Spawn { .. } => Outline::Plain,
            Cmd::If { then, other, .. } => Outline::If(then.as_slice(), other.as_slice()),
            Cmd::Loop { body, .. } => Outline::Loop(body.as_slice()),
            Cmd::Break { .. } => Outline::Break,
            Cmd::Continue { .. } => Outline::Continue,
            Cmd::Return { .. } => Outline::Return,
        }
    }
}
