//! The words of commands.

ghost use Rattle.std.specs.Prelude.{◌≡◌};
ghost use Rattle.gv_lang.specs.Plain.{tree_of};
ghost use Rattle.gv_pointlines.specs.PointLines as lines;

use gv_lang::Cmd;

/// The word of a command. A division and a remainder are a Let, and a read of one of two disks is a DiskRead.
#[tactic(auto, using(gv_lang::proofs::Trees::commands))]
pub(crate) fn word(c: &Cmd) -> &'static str
    ensures { result.now ≡ lines.word (tree_of c.now) }
{
    match c {
        Cmd::Let { .. } | Cmd::Div { .. } | Cmd::Rem { .. } => "Let",
        Cmd::New { .. } => "New",
        Cmd::Load { .. } => "Load",
        Cmd::Store { .. } => "Store",
        Cmd::MakeSlice { .. } => "MakeSlice",
        Cmd::At { .. } => "At",
        Cmd::Put { .. } => "Put",
        Cmd::Len { .. } => "Len",
        Cmd::NewMap { .. } => "NewMap",
        Cmd::MapGet { .. } => "MapGet",
        Cmd::MapPut { .. } => "MapPut",
        Cmd::MapDelete { .. } => "MapDelete",
        Cmd::NewMutex { .. } => "NewMutex",
        Cmd::Lock { .. } => "Lock",
        Cmd::Unlock { .. } => "Unlock",
        Cmd::DiskRead { .. } | Cmd::DiskRead2 { .. } => "DiskRead",
        Cmd::DiskWrite { .. } => "DiskWrite",
        Cmd::DiskSize { .. } => "DiskSize",
        Cmd::Get64 { .. } => "Get64",
        Cmd::Put64 { .. } => "Put64",
        Cmd::Sub { .. } => "Sub",
        Cmd::Append { .. } => "Append",
        Cmd::Call { .. } => "Call",
        Cmd::Spawn { .. } => "Spawn",
        Cmd::If { .. } => "If",
        Cmd::Loop { .. } => "Loop",
        Cmd::Break { .. } => "Break",
        Cmd::Continue { .. } => "Continue",
        Cmd::Return { .. } => "Return",
    }
}
