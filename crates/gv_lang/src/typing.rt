//! Whether the commands of a block have operands, arguments and results of their kinds.

ghost use Rattle.std.specs.Prelude.{◌≡◌, slice_get, map};
ghost use Rattle.gv_lang.specs.declared.program.LocalKind.TheVariants as kind;
ghost use Rattle.gv_lang.specs.Plain.{tree_of, body_of, expr_of, exprs_of, program_of};
ghost use Rattle.gv_lang.specs.Kinds.{is, sets, given, fields_of, kind_in, are_fields, are_args, are_results, kind_at, kind_of, agree, is_item, is_typed_block, is_typed};

use crate::cmd::Cmd;
use crate::kinds::{
    agree, fit_kinds, fit_locals, fit_results, is_item, is_kind, item_kind, kind_at, kind_of,
    params,
};
use crate::program::{Local, LocalKind, Program};
use crate::pure::Pure;

/// What the names of a procedure's commands stand for, and what it returns.
#[derive(Clone, Copy, Drop)]
pub struct Scope<'p> {
    pub program: &'p Program,
    pub locals: &'p [Local],
    pub results: &'p [LocalKind],
}

impl Scope<'_> {
    // Whether an operand is of this kind.
    fn is(&self, kind: LocalKind, e: &Pure) -> bool
        ensures { result ≡ is (program_of self.now.program.now) self.now.locals.now kind (expr_of e.now) }
    {
        is_kind(kind, kind_of(self.locals, e))
    }

    fn is_word(&self, e: &Pure) -> bool
        ensures { result ≡ is (program_of self.now.program.now) self.now.locals.now kind.Word (expr_of e.now) }
    {
        self.is(LocalKind::Word, e)
    }

    fn is_ref(&self, e: &Pure) -> bool
        ensures { result ≡ is (program_of self.now.program.now) self.now.locals.now kind.Ref (expr_of e.now) }
    {
        self.is(LocalKind::Ref, e)
    }

    fn is_slice(&self, e: &Pure) -> bool
        ensures { result ≡ is (program_of self.now.program.now) self.now.locals.now kind.Slice (expr_of e.now) }
    {
        self.is(LocalKind::Slice, e)
    }

    // Whether a local that is set is of this kind.
    fn sets(&self, kind: LocalKind, x: u32) -> bool
        ensures { result ≡ sets (program_of self.now.program.now) self.now.locals.now kind x }
    {
        is_kind(kind, kind_at(self.locals, x))
    }

    fn sets_word(&self, x: u32) -> bool
        ensures { result ≡ sets (program_of self.now.program.now) self.now.locals.now kind.Word x }
    {
        self.sets(LocalKind::Word, x)
    }

    fn sets_bool(&self, x: u32) -> bool
        ensures { result ≡ sets (program_of self.now.program.now) self.now.locals.now kind.Bool x }
    {
        self.sets(LocalKind::Bool, x)
    }

    fn sets_ref(&self, x: u32) -> bool
        ensures { result ≡ sets (program_of self.now.program.now) self.now.locals.now kind.Ref x }
    {
        self.sets(LocalKind::Ref, x)
    }

    fn sets_slice(&self, x: u32) -> bool
        ensures { result ≡ sets (program_of self.now.program.now) self.now.locals.now kind.Slice x }
    {
        self.sets(LocalKind::Slice, x)
    }

    // Whether a local that is set is of this kind, where there is one.
    fn takes(&self, x: u32, kind: Option<LocalKind>) -> bool
        ensures { result ≡ agree (kind_at self.now.locals.now x) kind }
    {
        agree(kind_at(self.locals, x), kind)
    }

    fn sets_item(&self, x: u32) -> bool
        ensures { result ≡ is_item (kind_at self.now.locals.now x) }
    {
        is_item(kind_at(self.locals, x))
    }

    fn is_item(&self, e: &Pure) -> bool
        ensures { result ≡ is_item (kind_of self.now.locals.now (expr_of e.now)) }
    {
        is_item(kind_of(self.locals, e))
    }

    // The kind of a struct's field, where there is one.
    fn field(&self, of: u32, field: u32) -> Option<LocalKind>
        ensures { result ≡ kind_in (fields_of (program_of self.now.program.now) of) field }
    {
        match self.program.structs.get(of as usize) {
            None => None,
            Some(it) => kind_at(it.fields.as_slice(), field),
        }
    }

    // Whether expressions are of the kinds of a struct's fields.
    fn are_fields(&self, of: u32, vs: &[Pure]) -> bool
        ensures { result ≡ are_fields (fields_of (program_of self.now.program.now) of) (map (kind_of self.now.locals.now) (exprs_of vs.now)) }
    {
        match self.program.structs.get(of as usize) {
            None => false,
            Some(it) => fit_locals(self.locals, vs, it.fields.as_slice()),
        }
    }

    // Whether expressions are of the kinds of a procedure's parameters.
    fn are_args(&self, f: u32, es: &[Pure]) -> bool
        ensures { result ≡ are_args (slice_get (program_of self.now.program.now).procs f) (map (kind_of self.now.locals.now) (exprs_of es.now)) }
    {
        match self.program.procs.get(f as usize) {
            None => false,
            Some(it) => fit_locals(self.locals, es, params(it)),
        }
    }

    // Whether locals are of the kinds of a procedure's results.
    fn are_results(&self, f: u32, xs: &[u32]) -> bool
        ensures { result ≡ are_results (slice_get (program_of self.now.program.now).procs f) (map (kind_at self.now.locals.now) xs.now) }
    {
        match self.program.procs.get(f as usize) {
            None => false,
            Some(it) => fit_results(self.locals, xs, it.results.as_slice()),
        }
    }

    /// Whether the commands of a block have operands, arguments and results of their kinds.
    #[tactic(auto, using(crate::proofs::Trees::commands))]
    #[cycle(typed)]
    pub fn is_typed_block(&self, cs: &[Cmd]) -> bool
        ensures { result ≡ is_typed_block (program_of self.now.program.now) self.now.locals.now self.now.results.now (body_of cs.now) }
    {
        let mut rest = cs;
        while let [first, tail @ ..] = rest {
            if !self.is_typed(first) {
                return false;
            }
            rest = tail;
        }
        true
    }

    #[tactic(auto, using(crate::proofs::Trees::commands))]
    #[cycle(typed)]
    fn is_typed(&self, c: &Cmd) -> bool
        ensures { result ≡ is_typed (program_of self.now.program.now) self.now.locals.now self.now.results.now (tree_of c.now) }
    {
        match c {
            Cmd::Let { x, e, .. } => self.takes(*x, kind_of(self.locals, e)),
            Cmd::Div { x, a, b, .. } => self.sets_word(*x) && self.is_word(a) && self.is_word(b),
            Cmd::Rem { x, a, b, .. } => self.sets_word(*x) && self.is_word(a) && self.is_word(b),
            Cmd::New { x, of, vs, .. } => self.sets_ref(*x) && self.are_fields(*of, vs.as_slice()),
            Cmd::Load {
                x,
                p,
                of,
                field,
                ..
            } => { self.takes(*x, self.field(*of, *field)) && self.is_ref(p) }
            Cmd::Store {
                p,
                of,
                field,
                e,
                ..
            } => { self.is_ref(p) && agree(kind_of(self.locals, e), self.field(*of, *field)) }
            Cmd::MakeSlice { x, n, .. } => self.sets_slice(*x) && self.is_word(n),
            Cmd::At { x, s, i, .. } => self.sets_item(*x) && self.is_slice(s) && self.is_word(i),
            Cmd::Put { s, i, v, .. } => self.is_slice(s) && self.is_word(i) && self.is_item(v),
            Cmd::Len { x, s, .. } => self.sets_word(*x) && self.is_slice(s),
            Cmd::NewMap { x, .. } => self.sets_ref(*x),
            Cmd::MapGet { x, ok, m, k, .. } => {
                self.sets_word(*x) && self.sets_bool(*ok) && self.is_ref(m) && self.is_word(k)
            }
            Cmd::MapPut { m, k, v, .. } => self.is_ref(m) && self.is_word(k) && self.is_word(v),
            Cmd::MapDelete { m, k, .. } => self.is_ref(m) && self.is_word(k),
            Cmd::NewMutex { x, .. } => self.sets_ref(*x),
            Cmd::Lock { m, .. } => self.is_ref(m),
            Cmd::Unlock { m, .. } => self.is_ref(m),
            Cmd::DiskRead { x, a, .. } => self.sets_slice(*x) && self.is_word(a),
            Cmd::DiskRead2 { x, ok, d, a, .. } => {
                self.sets_slice(*x) && self.sets_bool(*ok) && self.is_word(d) && self.is_word(a)
            }
            Cmd::DiskWrite { d, a, s, .. } => self.is_word(d)
                && self.is_word(a)
                && self.is_slice(s),
            Cmd::DiskSize { x, .. } => self.sets_word(*x),
            Cmd::Get64 { x, s, .. } => self.sets_word(*x) && self.is_slice(s),
            Cmd::Put64 { s, v, .. } => self.is_slice(s) && self.is_word(v),
            Cmd::Sub { x, s, a, b, .. } => {
                self.sets_slice(*x) && self.is_slice(s) && self.is_word(a) && self.is_word(b)
            }
            Cmd::Append { x, item, s, v, .. } => {
                self.sets_slice(*x) && self.is_slice(s) && self.is(item_kind(*item), v)
            }
            Cmd::Call { xs, f, es, .. } => {
                self.are_args(*f, es.as_slice()) && self.are_results(*f, xs.as_slice())
            }
            Cmd::Spawn { f, es, .. } => self.are_args(*f, es.as_slice()),
            Cmd::If { e, then, other, .. } => {
                self.is(LocalKind::Bool, e)
                    && self.is_typed_block(then.as_slice())
                    && self.is_typed_block(other.as_slice())
            }
            Cmd::Loop { body, .. } => self.is_typed_block(body.as_slice()),
            Cmd::Break { .. } => true,
            Cmd::Continue { .. } => true,
            Cmd::Return { es, .. } => fit_kinds(self.locals, es.as_slice(), self.results),
        }
    }
}
