//! Where the locals of a procedure have their places.

ghost use Rattle.std.specs.Prelude.{◌≡◌, IfOk};
ghost use Rattle.gv_lowering.specs.Operands.{Context, VariableAt, temporary as temporary_of};

use gv_base::NoMemory;

/// Where the locals of a procedure have their places, and which numbers procedures have.
pub trait Places {
    /// The places, as the translation has them.
    ghost context: { Self → Context };

    /// The place of a variable, by the byte where its name is declared; memory is wanting where that is no number of 32 bits.
    fn variable(&self, declared: u32) -> Result<u32, NoMemory>
        ensures { IfOk result (λ x. x ≡ (context self.now).place (VariableAt declared)) };

    /// The place of the temporary that is used when so many are in use; memory is wanting where that is no number of 32 bits.
    fn temporary(&self, used: usize) -> Result<u32, NoMemory>
        ensures { IfOk result (λ x. x ≡ temporary_of (context self.now) used) };

    /// The number of a declared procedure, by its order in the text.
    fn procedure(&self, number: u32) -> u32
        ensures { result ≡ (context self.now).procedure number };

    /// The number of the procedure of the literal behind the `go` at a byte.
    fn literal(&self, word: u32) -> u32
        ensures { result ≡ (context self.now).literal word };
}
