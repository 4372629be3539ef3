//! Names of methods.

ghost use Rattle.std.specs.Prelude.{◌≡◌};
ghost use Rattle.gv_lang.specs.Plain.{program_of};
ghost use Rattle.gv_lang.specs.WellShaped.{method_at as method, method_of as method_in};

use gv_lang::Program;

// The name of a procedure's method: what follows the first dot, or all of it where there is none.
fn method_of(name: &[u8]) -> &[u8]
    ensures { result.now ≡ method_in name.now }
{
    let mut rest = name;
    while let [first, tail @ ..] = rest {
        if *first == b'.' {
            return tail;
        }
        rest = tail;
    }
    name
}

/// The name of the method of an operation.
pub fn method_at(program: &Program, op: u32) -> &[u8]
    ensures { result.now ≡ method (program_of program.now) op }
{
    match program.procs.get(op as usize) {
        None => &[],
        Some(p) => method_of(p.name.as_slice()),
    }
}
