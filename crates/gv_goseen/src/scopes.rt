//! The scopes that a walk opens, fills and closes.

ghost use Rattle.std.specs.Prelude.{◌≡◌, ◌∷◌, [], true, OnOk, OnErr};
ghost use Rattle.gv_gonames.specs.Trail.{is_around};
ghost use Rattle.gv_gotypes.specs.Scopes as scope;
ghost use Rattle.gv_goscopes.specs.Scopes.{with_results};
ghost use Rattle.gv_goseen.specs.Seen.{env_of, outer_of, source_of};

use crate::lookups::is_blank;
use crate::seen::Seen;
use gv_base::NoMemory;
use gv_gonames::{bytes_between, span_of};
use gv_gosyntax::Lexeme;
use gv_gotypes::Entity;
use gv_operands::GoType;
use std::alloc::Global;

impl<'a> Seen<'a> {
    /// The name is declared in the scope that was opened last.
    pub fn is_here(&self, name: Lexeme) -> bool
        ensures { result ≡ scope.is_here (env_of self.now).entries (scope.name_in (source_of self.now) name) }
    {
        self.locals.is_here(self.bytes(name))
    }

    /// The types of the results of the function around; none within a literal behind `go`.
    pub fn results(&self) -> &[Option<GoType>]
        ensures { result.now ≡ (env_of self.now).results }
    {
        self.locals.results()
    }

    /// A block begins.
    pub fn open(&mut self) -> Result<(), NoMemory>
        ensures env { OnOk result (env_of self.new ≡ scope.opened (env_of self.old)) }
        ensures outer { OnOk result (outer_of self.new ≡ env_of self.old ∷ outer_of self.old) }
        ensures kept { OnErr result (self.new ≡ self.old) }
    {
        self.locals.open()
    }

    /// A literal behind `go` begins.
    pub fn open_literal(&mut self, alloc: Global) -> Result<(), NoMemory>
        ensures env { OnOk result (env_of self.new ≡ scope.in_literal (env_of self.old)) }
        ensures outer { OnOk result (outer_of self.new ≡ env_of self.old ∷ outer_of self.old) }
        ensures kept { OnErr result (self.new ≡ self.old) }
    {
        self.locals.open_literal(alloc)
    }

    /// A function begins that gives results of these types.
    pub fn open_function(&mut self, results: Vec<Option<GoType>>) -> Result<(), NoMemory>
        ensures env { OnOk result (env_of self.new ≡ with_results (env_of self.old) results.items) }
        ensures outer { OnOk result (outer_of self.new ≡ env_of self.old ∷ outer_of self.old) }
        ensures kept { OnErr result (self.new ≡ self.old) }
    {
        self.locals.open_function(results)
    }

    /// What was opened last ends: what is seen is what was seen before it was.
    pub fn close(&mut self)
        requires { is_around self.old.locals.outer ≡ true }
        ensures { outer_of self.old ≡ env_of self.new ∷ outer_of self.new }
    {
        self.locals.close();
    }

    /// A variable is declared. `_`, and a name that is declared in this scope already, declares nothing.
    pub fn declare(
        &mut self,
        alloc: Global,
        name: Lexeme,
        kind: Option<GoType>,
    ) -> Result<(), NoMemory>
        ensures env { OnOk result (env_of self.new ≡ scope.with_variable (env_of self.old) name kind) }
        ensures outer { OnOk result (outer_of self.new ≡ outer_of self.old) }
        ensures kept { OnErr result (self.new ≡ self.old) }
    {
        let bytes = bytes_between(self.text, span_of(name));
        if is_blank(bytes) {
            return Ok(());
        }
        self.locals
            .declare(alloc, bytes, Entity::Variable(name.start, kind))
    }
}
