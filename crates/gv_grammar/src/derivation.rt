//! Derives lists of classes.
ghost use Rattle.std.specs.Prelude.{◌≡◌, ◌++◌, [], true, reverse, take, OnOk, IfOk, IfErr, IfSome, IfNone};
ghost use Rattle.gv_grammar.specs.Derivation.{tables_of};
ghost use Rattle.gv_grammar.specs.Predictive.{is_predictive, certificate_of, MayBegin};
ghost use Rattle.gv_grammar.specs.Engine.{IsSound, Advances};
ghost use Rattle.gv_grammar.specs.Outcomes.{IsDerivation, EndsEarly, IsLongest};
ghost use Rattle.gv_grammar.specs.Faults.{Explains, IsFrontOf};

use crate::faults::Fault;
use crate::grammars::{Grammar, has, row, rule_for};
use crate::steps::Step;
use crate::symbols::Symbol;
use std::alloc::{AllocError, Global};

/// What became of a stack before a class.
#[derive(Clone, Copy, Debug, PartialEq, Eq)]
enum Advance {
    Taken,
    Refused,
    Finished,
}

/// Puts symbols on a stack, the first of them on top.
fn push_all(stack: &mut Vec<Symbol>, symbols: &[Symbol]) -> Result<(), AllocError>
    ensures { OnOk result (reverse stack.new.items ≡ symbols.now ++ reverse stack.old.items) }
{
    for symbol in symbols.iter().rev() {
        stack.push(*symbol)?;
    }
    Ok(())
}

/// Replaces names at the top of the stack until a token is there, and takes it if it is of the class.
fn take_class(
    grammar: &Grammar,
    class: u8,
    stack: &mut Vec<Symbol>,
    steps: &mut Vec<Step>,
) -> Result<Advance, AllocError>
    requires predictive { is_predictive (tables_of grammar.now) ≡ true }
    requires sound { IsSound (tables_of grammar.now) (certificate_of (tables_of grammar.now)) (reverse stack.old.items) }
    ensures { IfOk result (λ advance. Advances (tables_of grammar.now) class (reverse stack.old.items)
        (reverse stack.new.items) steps.old.items steps.new.items advance) }
{
    while let Some(symbol) = stack.pop() {
        match symbol {
            Symbol::Token(set) => {
                if !has(grammar, set, class) {
                    return Ok(Advance::Refused);
                }
                steps.push(Step::Take)?;
                return Ok(Advance::Taken);
            }
            Symbol::Act(act) => {
                steps.push(Step::Do(act))?;
            }
            Symbol::Name(name) => match rule_for(grammar, name, class) {
                Some(rule) => {
                    push_all(stack, row(grammar.symbols, grammar.starts, rule))?;
                }
                None => return Ok(Advance::Refused),
            },
        }
    }
    Ok(Advance::Finished)
}

/// Appends the derivation of the classes to no steps; at a fault, the steps of the classes before it.
pub(crate) fn derive_into(
    alloc: Global,
    grammar: &Grammar,
    root: u8,
    classes: &[u8],
    steps: &mut Vec<Step>,
) -> Result<(), Fault>
    requires begins { MayBegin (tables_of grammar.now) root }
    requires none { steps.old.items ≡ [] }
    ensures derived { OnOk result (IsDerivation (tables_of grammar.now) root steps.new.items classes.now) }
    ensures fault { IfErr result (Explains (tables_of grammar.now) root classes.now) }
    ensures front { IfErr result (IsFrontOf (tables_of grammar.now) root classes.now steps.new.items) }
{
    let mut stack = Vec::new(alloc);
    stack.push(Symbol::Name(root))?;
    for (at, class) in classes.iter().enumerate() {
        let kept = steps.len();
        match take_class(grammar, *class, &mut stack, steps)? {
            Advance::Taken => {}
            Advance::Refused | Advance::Finished => {
                steps.truncate(kept);
                return Err(Fault::Refused { at });
            }
        }
    }
    let kept = steps.len();
    match take_class(grammar, 0, &mut stack, steps)? {
        Advance::Finished => Ok(()),
        Advance::Refused | Advance::Taken => {
            steps.truncate(kept);
            Err(Fault::End)
        }
    }
}

/// The one derivation of the classes from a root, in time and room linear in their number.
///
/// Errors: `Refused` at the first class such that no list derived from the root begins with the classes up to it; `End`
/// where the classes begin a derived list and are none. Source: this project's own, a predictive parser with a checked table.
pub fn derive(
    alloc: Global,
    grammar: &Grammar,
    root: u8,
    classes: &[u8],
) -> Result<Vec<Step>, Fault>
    requires { MayBegin (tables_of grammar.now) root }
    ensures derived { IfOk result (λ steps. IsDerivation (tables_of grammar.now) root steps.items classes.now) }
    ensures fault { IfErr result (Explains (tables_of grammar.now) root classes.now) }
{
    let mut steps = Vec::new(alloc);
    derive_into(alloc, grammar, root, classes, &mut steps)?;
    Ok(steps)
}

/// A longest front of a list that begins a list derived from a root.
#[derive(Debug, Drop)]
pub struct Run {
    /// How many classes it has.
    pub len: usize,
    /// Its derivation, if it is itself derived.
    pub steps: Option<Vec<Step>>,
}

/// The longest front of the classes that a list derived from the root begins with, and its derivation where it is itself derived;
/// in time and room linear in this front.
pub fn longest(
    alloc: Global,
    grammar: &Grammar,
    root: u8,
    classes: &[u8],
) -> Result<Run, AllocError>
    requires { MayBegin (tables_of grammar.now) root }
    ensures front { IfOk result (λ run. IsLongest (tables_of grammar.now) root classes.now run.len) }
    ensures whole { IfOk result (λ run. IfSome run.steps (λ steps. IsDerivation (tables_of grammar.now) root steps.items (take run.len classes.now))) }
    ensures part { IfOk result (λ run. IfNone run.steps (EndsEarly (tables_of grammar.now) root (take run.len classes.now))) }
{
    let len = match derive(alloc, grammar, root, classes) {
        Ok(steps) => {
            return Ok(Run {
                len: classes.len(),
                steps: Some(steps),
            });
        }
        Err(Fault::NoMemory) => return Err(AllocError),
        Err(Fault::End) => {
            return Ok(Run {
                len: classes.len(),
                steps: None,
            });
        }
        Err(Fault::Refused { at }) => at,
    };
    match derive(alloc, grammar, root, &classes[..len]) {
        Ok(steps) => Ok(Run {
            len,
            steps: Some(steps),
        }),
        Err(Fault::NoMemory) => Err(AllocError),
        Err(Fault::End) => Ok(Run { len, steps: None }),
        Err(Fault::Refused { at: _ }) => unreachable!(),
    }
}
