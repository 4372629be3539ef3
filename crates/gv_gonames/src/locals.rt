//! The scopes within a function.

ghost use Rattle.std.specs.Prelude.{◌≡◌, ◌≤◌, ◌<◌, ◌∷◌, [], true, length, IfOk, OnOk, OnErr};
ghost use Rattle.std.specs.Bool.{OnTrue, OnFalse};
ghost use Rattle.gv_gotypes.specs.Scopes as scope;
ghost use Rattle.gv_gonames.specs.Trail.{entered, is_around, with_declared, with_entry};

use crate::innermost::{found_as, is_in_block, local_at, put, put_back};
use crate::trail::{DeclaredStep, Local, Step};
use gv_base::NoMemory;
use gv_gotypes::{Entity, Found};
use gv_operands::GoType;
use indexmap::IndexMap;
use std::alloc::Global;
use std::marker::Model;
use std::mem::replace;

/// What was declared and opened within a function, which contracts see as the entries that are seen, with the types of the results,
/// and the same as it was when each scope was opened that isn't closed. A look-up takes no more steps where there are more names,
/// and the end of a scope takes a step for each name that it declared. This project's own.
#[derive(Drop)]
pub struct Locals {
    trail: Vec<Step>,
    seen: IndexMap<Vec<u8>, Option<Local>>,
    results: Vec<Option<GoType>>,
    blocks: usize,
    literals: usize,
}

impl Model for Locals {
    ghost use Rattle.std.specs.Prelude.{reverse};
    ghost use Rattle.gv_gonames.specs.Firsts.{value_at};
    ghost use Rattle.gv_gonames.specs.Trail.{ScopesOf, scopes_of, IsKept};

    ghost Value = { ScopesOf };

    ghost view = { λ s. scopes_of s.trail.items s.results.items };

    ghost invariant = { λ s. IsKept (reverse s.trail.items) (value_at s.seen) s.blocks s.literals };
}

impl Locals {
    /// Nothing is declared, and no scope is open.
    pub fn new(alloc: Global) -> Locals
        ensures { result ≡ record { here = record { entries = []; results = [] }; outer = [] } }
    {
        Locals {
            trail: Vec::new(alloc),
            seen: IndexMap::new(alloc),
            results: Vec::new(alloc),
            blocks: 0,
            literals: 0,
        }
    }

    /// The types of the results of the function around; none within a literal behind `go`.
    pub fn results(&self) -> &[Option<GoType>]
        ensures { result.now ≡ self.now.here.results }
    {
        self.results.as_slice()
    }

    /// What a name stands for, where `other` is what it stands for in the package.
    pub fn found(&self, name: &[u8], other: Option<Entity>) -> Option<Found>
        ensures { result ≡ scope.found_among self.now.here.entries other name.now }
    {
        found_as(local_at(&self.seen, name), other, self.literals)
    }

    /// The name is declared in the block that was opened last.
    pub fn is_here(&self, name: &[u8]) -> bool
        ensures { result ≡ scope.is_here self.now.here.entries name.now }
    {
        is_in_block(local_at(&self.seen, name), self.blocks)
    }

    /// A block begins.
    pub fn open(&mut self) -> Result<(), NoMemory>
        ensures opened { OnOk result (self.new ≡ entered self.old (with_entry self.old.here scope.Opened)) }
        ensures kept { OnErr result (self.new ≡ self.old) }
    {
        let _room = self.trail.len();
        self.trail.push(Step::Opened)?;
        self.blocks += 1;
        Ok(())
    }

    /// A literal behind `go` begins, which has no results.
    pub fn open_literal(&mut self, alloc: Global) -> Result<(), NoMemory>
        ensures opened { OnOk result (self.new ≡ entered self.old (record { entries = scope.Literal ∷ self.old.here.entries; results = [] })) }
        ensures kept { OnErr result (self.new ≡ self.old) }
    {
        let _room = self.trail.len();
        self.trail.reserve(1)?;
        let before = replace(&mut self.results, Vec::new(alloc));
        self.trail.push(Step::Literal(before))?;
        self.blocks += 1;
        self.literals += 1;
        Ok(())
    }

    /// A function begins that gives results of these types.
    pub fn open_function(&mut self, results: Vec<Option<GoType>>) -> Result<(), NoMemory>
        ensures opened { OnOk result (self.new ≡ entered self.old (record { entries = self.old.here.entries; results = results.items })) }
        ensures kept { OnErr result (self.new ≡ self.old) }
    {
        self.trail.reserve(1)?;
        let before = replace(&mut self.results, results);
        self.trail.push(Step::Function(before))?;
        Ok(())
    }

    /// A name is declared. Where the block that was opened last has it already, nothing is.
    pub fn declare(&mut self, alloc: Global, name: &[u8], entity: Entity) -> Result<(), NoMemory>
        ensures declared { OnOk result (self.new ≡ with_declared self.old name.now entity) }
        ensures kept { OnErr result (self.new ≡ self.old) }
    {
        if self.is_here(name) {
            return Ok(());
        }
        let step = DeclaredStep {
            name: Vec::from_slice(alloc, name)?,
            entity,
            before: local_at(&self.seen, name),
        };
        let local = Local {
            entity,
            blocks: self.blocks,
            literals: self.literals,
        };
        let key = Vec::from_slice(alloc, name)?;
        self.trail.reserve(1)?;
        put(&mut self.seen, key, Some(local))?;
        self.trail.push(Step::Declared(step))?;
        Ok(())
    }

    // Takes back the last step, and tells whether it began a scope.
    fn step_back(&mut self) -> bool
        requires { is_around self.old.outer ≡ true }
        ensures ended { OnTrue result (self.old.outer ≡ self.new.here ∷ self.new.outer) }
        ensures shorter { OnTrue result (length self.new.here.entries ≤ length self.old.here.entries) }
        ensures same { OnFalse result (self.new.outer ≡ self.old.outer) }
        ensures fewer { OnFalse result (length self.new.here.entries < length self.old.here.entries) }
    {
        match self.trail.pop() {
            Some(Step::Declared(step)) => {
                put_back(&mut self.seen, step.name, step.before);
                false
            }
            Some(Step::Opened) => {
                self.blocks -= 1;
                true
            }
            Some(Step::Literal(before)) => {
                self.blocks -= 1;
                self.literals -= 1;
                self.results = before;
                true
            }
            Some(Step::Function(before)) => {
                self.results = before;
                true
            }
            None => unreachable!(),
        }
    }

    /// What was opened last ends: what is seen is what was seen before it was.
    pub fn close(&mut self)
        requires { is_around self.old.outer ≡ true }
        ensures { self.old.outer ≡ self.new.here ∷ self.new.outer }
    {
        let mut ended = false;
        while !ended {
            ended = self.step_back();
        }
    }
}
