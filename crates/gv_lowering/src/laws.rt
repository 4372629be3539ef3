//! What is computed of programs of packages.

ghost use Rattle.gv_lowering.specs.Rows.{Rows};

/// The program of one package.
pub fn worked_programs()
    ensures { Rows }
{}
