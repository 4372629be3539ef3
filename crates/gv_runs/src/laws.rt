//! What is proved of the machine of a package. Each function does nothing: its contract is the law.

ghost use Rattle.gv_runs.specs.Laws.{RepliesNeverWait, FailuresAreDefined, CrashLeaves, StepsAreOfThreads, CallsStart};
ghost use Rattle.gv_runs.specs.Examples.{CounterRows, MirrorRows};

/// Worked runs, computed: two calls of a counter without a lock, and two disks that mirror each other.
#[tactic(auto, using(crate::proofs::Examples::counter_rows, crate::proofs::Examples::mirror_rows))]
pub fn worked()
    ensures counter { CounterRows }
    ensures mirror { MirrorRows }
{}

/// What holds of the runs of every program: reading a reply never waits, the failure of a disk is never
/// undefined, a crash keeps the disks and the numbers of calls, drops objects and receiver and starts
/// recovery, a step waits or is undefined where its thread's command does, and where interfaces agree
/// an allowed call starts while there is a receiver.
pub fn packages()
    ensures replies { RepliesNeverWait }
    ensures failures { FailuresAreDefined }
    ensures crash { CrashLeaves }
    ensures steps { StepsAreOfThreads }
    ensures calls { CallsStart }
{}
