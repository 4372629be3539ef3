//! Laws of the definitions in this crate. Each function does nothing: its contract is the law.

ghost use Rattle.gv_spec.specs.RunLaws.{ChangesNothing, NoCallBeforeBoot, NoStepOfEnded, EndedStays, CrashHappens, CrashDrops, NoFail, UndefinedStays, DefinedThroughout};
ghost use Rattle.gv_spec.specs.WalkLaws.{WalkTells, ActsOnce, AnsweredActs, NoActAfterBoot, NoWrongReply, OneCallReplies};
ghost use Rattle.gv_spec.specs.Plain.{SameWalks, ErasedExplains, SameExplained};
ghost use Rattle.gv_spec.specs.WrongDefinitions.{WrongWalks, WrongRuns};
ghost use Rattle.gv_spec.specs.Atomic.{WalksKeepSorts, FirstCallReplies};
ghost use Rattle.gv_spec.specs.Examples.{TwoCalls, CrashedCall, WrongPackage, Refusals, Choices, StartedThreads, SecondFailure};

use gv_atomic::Spec;

/// What no event changes, for any machine: an event that isn't possible changes nothing, and these
/// aren't possible: a call before a boot, a step of a thread that has ended, the failure of a disk
/// that may not fail, anything after an undefined step.
#[tactic(auto, using(crate::proofs::RunLaws::changes_nothing, crate::proofs::RunLaws::no_call_before_boot, crate::proofs::RunLaws::no_step_of_ended, crate::proofs::RunLaws::no_fail, crate::proofs::RunLaws::undefined_stays))]
pub fn impossible_events<W, T, R, V>()
    ensures unchanged { ChangesNothing W T R V }
    ensures call { NoCallBeforeBoot W T R V }
    ensures step { NoStepOfEnded W T R V }
    ensures fail { NoFail W T R V }
    ensures undefined { UndefinedStays W T R V }
{}

/// What holds along a run, for any machine: a thread that has ended or was dropped stays so, a crash
/// is always possible and drops every thread, and a run without a fault at its end had no undefined
/// step.
#[tactic(auto, using(crate::proofs::RunLaws::stays_ended, crate::proofs::RunLaws::crash_drops_all, crate::proofs::RunLaws::throughout))]
pub fn lasting<W, T, R, V>()
    ensures ended { EndedStays W T R V }
    ensures crash { CrashHappens W T R V }
    ensures drops { CrashDrops W T R V }
    ensures defined { DefinedThroughout W T R V }
{}

/// What an explanation tells, for any specification: a call acts at most once; an answered call has
/// acted since its start, with the reply that it answers; a call that a boot left behind acts no
/// more; no history with another reply than its operation's has an explanation, and one call after
/// a boot has one with that reply. And the walk beside a history meets no fault exactly where the
/// moves explain it.
pub fn explanations<F, V>()
    ensures tells { WalkTells F V }
    ensures once { ActsOnce F V }
    ensures answered { AnsweredActs F V }
    ensures left_behind { NoActAfterBoot F V }
    ensures right_replies { NoWrongReply F V }
    ensures one_call { OneCallReplies F V }
{}

/// Over a specification that chooses nothing, histories are explained with choices exactly as they are
/// without: moves that choose nothing are walked alike, and moves that pass have chosen nothing.
#[tactic(auto, using(crate::proofs::PlainLaws::walks_are_same, crate::proofs::PlainLaws::explains_erased, crate::proofs::PlainLaws::explained_same))]
pub fn choosing_nothing<F, V>()
    ensures walks { SameWalks F V }
    ensures erased { ErasedExplains F V }
    ensures explained { SameExplained F V }
{}

/// What holds of walks over a specification that is made of terms: the fields stay of their sorts,
/// and one call after a boot has an explanation exactly where it answers with its operation's reply
/// on the first fields after a crash.
pub fn written_walks(spec: &Spec)
    ensures sorts { WalksKeepSorts spec.now }
    ensures one_call { FirstCallReplies spec.now }
{}

/// Worked runs, computed: two calls at the same time with their explanation, a call that a crash
/// drops, a machine that doesn't refine a specification, what refuses moves and
/// where, choices, threads that start threads, and a second failure of a disk.
#[tactic(auto, using(crate::proofs::Examples::two_calls_run, crate::proofs::Examples::crashed_call_run, crate::proofs::Examples::walk_refusals, crate::proofs::Examples::drawn_choices, crate::proofs::Examples::second_failure))]
pub fn worked()
    ensures two_calls { TwoCalls }
    ensures crashed_call { CrashedCall }
    ensures wrong_package { WrongPackage }
    ensures refusals { Refusals }
    ensures choices { Choices }
    ensures started { StartedThreads }
    ensures second_failure { SecondFailure }
{}

/// Wrong definitions, computed: with one equation of the walk or of runs changed, these moves would
/// explain what nothing explains, and these runs would show what no run shows.
#[tactic(auto, using(crate::proofs::WrongDefinitions::wrong_walks, crate::proofs::WrongDefinitions::wrong_runs))]
pub fn wrong_definitions()
    ensures walks { WrongWalks }
    ensures runs { WrongRuns }
{}
