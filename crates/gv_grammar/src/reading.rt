//! Derives lists of classes within a limit of nesting.
ghost use Rattle.std.specs.Prelude.{[], length, take, IfOk, IfErr};
ghost use Rattle.gv_grammar.specs.Derivation.{tables_of};
ghost use Rattle.gv_grammar.specs.Predictive.{MayBegin};
ghost use Rattle.gv_grammar.specs.Outcomes.{IsDerivation, IsLongest};
ghost use Rattle.gv_grammar.specs.Levels.{deep_from, NotBefore};
ghost use Rattle.gv_grammar.specs.Faults.{ReadExplains, RunExplains};

use crate::derivation::derive_into;
use crate::faults::Fault;
use crate::grammars::Grammar;
use crate::levels::deep_before;
use crate::read_faults::ReadFault;
use crate::steps::Step;
use std::alloc::Global;

/// The one derivation of the classes from a root, if none of them opens a level above `limit`, where `level` levels are open
/// before them.
///
/// Errors: what comes first of a class too deep and a class refused, or `End`. Source: this project's own.
pub fn derive_within(
    alloc: Global,
    grammar: &Grammar,
    root: u8,
    classes: &[u8],
    level: u32,
    limit: u32,
) -> Result<Vec<Step>, ReadFault>
    requires { MayBegin (tables_of grammar.now) root }
    ensures derived { IfOk result (λ steps. IsDerivation (tables_of grammar.now) root steps.items classes.now) }
    ensures within { IfOk result (λ steps. NotBefore (length classes.now) (deep_from limit level [] 0 steps.items)) }
    ensures fault { IfErr result (ReadExplains (tables_of grammar.now) root level limit classes.now) }
{
    let mut steps = Vec::new(alloc);
    match derive_into(alloc, grammar, root, classes, &mut steps) {
        Ok(()) => match deep_before(alloc, &steps, level, limit, classes.len())? {
            Some(at) => Err(ReadFault::TooDeep { at }),
            None => Ok(steps),
        },
        Err(Fault::NoMemory) => Err(ReadFault::NoMemory),
        Err(Fault::Refused { at }) => match deep_before(alloc, &steps, level, limit, at)? {
            Some(deep) => Err(ReadFault::TooDeep { at: deep }),
            None => Err(ReadFault::Refused { at }),
        },
        Err(Fault::End) => match deep_before(alloc, &steps, level, limit, classes.len())? {
            Some(at) => Err(ReadFault::TooDeep { at }),
            None => Err(ReadFault::End),
        },
    }
}

/// A front of a list that is derived.
#[derive(Debug, Drop)]
pub struct DerivedRun {
    /// How many classes it has.
    pub len: usize,
    pub steps: Vec<Step>,
}

/// The longest front of the classes that a list derived from the root begins with, if it is itself derived within the limit.
///
/// Errors: `TooDeep` at a class of this front; `Refused` at the class behind it and `End` where there is none, if the
/// front is not derived. Source: this project's own.
pub fn longest_within(
    alloc: Global,
    grammar: &Grammar,
    root: u8,
    classes: &[u8],
    level: u32,
    limit: u32,
) -> Result<DerivedRun, ReadFault>
    requires { MayBegin (tables_of grammar.now) root }
    ensures longest { IfOk result (λ run. IsLongest (tables_of grammar.now) root classes.now run.len) }
    ensures derived { IfOk result (λ run. IsDerivation (tables_of grammar.now) root run.steps.items (take run.len classes.now)) }
    ensures within { IfOk result (λ run. NotBefore run.len (deep_from limit level [] 0 run.steps.items)) }
    ensures fault { IfErr result (RunExplains (tables_of grammar.now) root level limit classes.now) }
{
    let len = match derive_within(alloc, grammar, root, classes, level, limit) {
        Ok(steps) => {
            return Ok(DerivedRun {
                len: classes.len(),
                steps,
            });
        }
        Err(ReadFault::Refused { at }) => at,
        Err(fault) => return Err(fault),
    };
    match derive_within(alloc, grammar, root, &classes[..len], level, limit) {
        Ok(steps) => Ok(DerivedRun { len, steps }),
        Err(ReadFault::NoMemory) => Err(ReadFault::NoMemory),
        Err(ReadFault::End) => Err(ReadFault::Refused { at: len }),
        Err(ReadFault::Refused { at: _ }) => unreachable!(),
        Err(ReadFault::TooDeep { at: _ }) => unreachable!(),
    }
}
