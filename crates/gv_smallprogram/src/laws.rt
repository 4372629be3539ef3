//! What is proved of the programs of packages of the small form. Each function does nothing: its contract is the law.

ghost use Rattle.gv_smallprogram.specs.Examples.{SumValues, ProgramRows, RunRows};
ghost use Rattle.gv_smallprogram.specs.Laws.{PackagesAreSound, ProgramsAreWellShaped, ProgramsRefine, ProgramsRefineWritten, RefinesOnlySameReplies};

/// Every package of the small form that a text spells has distinct names, and Sums of its own arguments and of
/// numbers below 2^64. Its program has a good shape, and refines each specification of the small form with the
/// same operations and the same Sums: in every run, and so in every run without a crash, no step is undefined
/// and the history has an explanation. So it is with a specification as it was written, that is of the small form.
pub fn small_programs()
    ensures sound { PackagesAreSound }
    ensures well_shaped { ProgramsAreWellShaped }
    ensures refine { ProgramsRefine }
    ensures written { ProgramsRefineWritten }
{}

/// A program that refines a specification of the small form with the same operations, if only without crashes, gives
/// its replies: wherever both take a call, the two Sums have one value.
#[tactic(auto, using(crate::proofs::Replies::refines_only_same))]
pub fn small_replies()
    ensures { RefinesOnlySameReplies }
{}

/// Worked rows, computed: values of Sums, the program of the adder with its points, and its runs: a call and its answer, sums that go
/// around at 2^64, a call that a crash drops, two calls at the same time, and what isn't possible.
#[tactic(auto, using(crate::proofs::Examples::sum_values, crate::proofs::Examples::program_rows, crate::proofs::Examples::run_rows))]
pub fn worked()
    ensures sums { SumValues }
    ensures program { ProgramRows }
    ensures runs { RunRows }
{}
