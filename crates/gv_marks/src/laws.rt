//! Laws of the definitions in this crate. Each function does nothing: its contract is the law.

ghost use Rattle.gv_marks.specs.Marks.{MarksLaw};

/// Whatever a step does, each mark that it leaves was there before, or is of what its thread has begun to write.
pub fn steps_mark_what_they_write()
    ensures { MarksLaw }
{}
