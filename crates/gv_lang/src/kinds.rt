//! Whether commands have operands, arguments and results of the kinds that their places want.

ghost use Rattle.std.specs.Prelude.{◌≡◌, Bool, true, take, map};
ghost use Rattle.gv_lang.specs.declared.program.LocalKind.TheVariants as kind;
ghost use Rattle.gv_lang.specs.Plain.{expr_of, exprs_of};
ghost use Rattle.gv_lang.specs.Kinds.{kind_eq, is_kind, agree, agree_all, kind_at, kind_of_one, kind_of_two, kind_of, takes, gives, item_kind, is_item, kinds, given};

use crate::program::{ItemKind, Local, LocalKind, Proc};
use crate::pure::{Binary, Pure, Unary};

/// Whether the two kinds are the same.
pub fn same_kind(a: LocalKind, b: LocalKind) -> bool
    ensures { result ≡ kind_eq a b }
{
    match a {
        LocalKind::Word => matches!(b, LocalKind::Word),
        LocalKind::Bool => matches!(b, LocalKind::Bool),
        LocalKind::Ref => matches!(b, LocalKind::Ref),
        LocalKind::Slice => matches!(b, LocalKind::Slice),
    }
}

/// Whether there is a kind, and it is the one wanted.
pub fn is_kind(wanted: LocalKind, found: Option<LocalKind>) -> bool
    ensures { result ≡ is_kind wanted found }
{
    match found {
        None => false,
        Some(kind) => same_kind(kind, wanted),
    }
}

/// Whether both are there, and are the same.
pub fn agree(a: Option<LocalKind>, b: Option<LocalKind>) -> bool
    ensures { result ≡ agree a b }
{
    match b {
        None => false,
        Some(kind) => is_kind(kind, a),
    }
}

/// Whether it is the kind of some slice's items.
pub fn is_item(kind: Option<LocalKind>) -> bool
    ensures { result ≡ is_item kind }
{
    is_kind(LocalKind::Word, kind) || is_kind(LocalKind::Ref, kind)
}

/// An item of a slice, as a local has it.
pub fn item_kind(item: ItemKind) -> LocalKind
    ensures { result ≡ item_kind item }
{
    match item {
        ItemKind::Byte => LocalKind::Word,
        ItemKind::Word => LocalKind::Word,
        ItemKind::Ref => LocalKind::Ref,
    }
}

/// The kind of a local or a field by its place.
pub fn kind_at(locals: &[Local], x: u32) -> Option<LocalKind>
    ensures { result ≡ kind_at locals.now x }
{
    match locals.get(x as usize) {
        None => None,
        Some(local) => Some(local.kind),
    }
}

fn kind_of_one(operator: Unary, kind: Option<LocalKind>) -> Option<LocalKind>
    ensures { result ≡ kind_of_one operator kind }
{
    let wanted = match operator {
        Unary::Not => LocalKind::Bool,
        Unary::Complement => LocalKind::Word,
    };
    if is_kind(wanted, kind) { kind } else { None }
}

fn takes(operator: Binary, kind: Option<LocalKind>) -> bool
    ensures { result ≡ takes operator kind }
{
    match operator {
        Binary::Or | Binary::And => is_kind(LocalKind::Bool, kind),
        Binary::Equal => true,
        _ => is_kind(LocalKind::Word, kind),
    }
}

fn gives(operator: Binary) -> LocalKind
    ensures { result ≡ gives operator }
{
    match operator {
        Binary::Or | Binary::And | Binary::Equal | Binary::Less | Binary::AtMost => LocalKind::Bool,
        _ => LocalKind::Word,
    }
}

fn kind_of_two(operator: Binary, a: Option<LocalKind>, b: Option<LocalKind>) -> Option<LocalKind>
    ensures { result ≡ kind_of_two operator a b }
{
    if agree(a, b) && takes(operator, b) {
        Some(gives(operator))
    } else {
        None
    }
}

/// The kind of an expression, where each of its operators has operands of its kinds and each local
/// is there.
#[tactic(auto, using(crate::proofs::Trees::expressions))]
pub fn kind_of(locals: &[Local], e: &Pure) -> Option<LocalKind>
    ensures { result ≡ kind_of locals.now (expr_of e.now) }
{
    match e {
        Pure::Word(_) => Some(LocalKind::Word),
        Pure::Bool(_) => Some(LocalKind::Bool),
        Pure::Nil => Some(LocalKind::Ref),
        Pure::NilSlice => Some(LocalKind::Slice),
        Pure::Local(x) => kind_at(locals, *x),
        Pure::Unary(operator, e) => kind_of_one(*operator, kind_of(locals, e)),
        Pure::Binary(operator, a, b) => {
            kind_of_two(*operator, kind_of(locals, a), kind_of(locals, b))
        }
    }
}

/// The parameters of a procedure.
pub fn params(p: &Proc) -> &[Local]
    ensures { result.now ≡ take p.now.params p.now.locals }
{
    let locals = p.locals.as_slice();
    let count = p.params as usize;
    if count < locals.len() {
        &locals[..count]
    } else {
        locals
    }
}

/// Whether expressions are as many as fields or parameters, and each of its kind.
pub fn fit_locals(locals: &[Local], es: &[Pure], wanted: &[Local]) -> bool
    ensures { result ≡ agree_all (map (kind_of locals.now) (exprs_of es.now)) (kinds wanted.now) }
{
    let mut left = es;
    let mut places = wanted;
    while let [e, rest @ ..] = left {
        let [local, others @ ..] = places else {
            return false;
        };
        if !is_kind(local.kind, kind_of(locals, e)) {
            return false;
        }
        left = rest;
        places = others;
    }
    places.is_empty()
}

/// Whether expressions are as many as these kinds, and each of its kind.
pub fn fit_kinds(locals: &[Local], es: &[Pure], wanted: &[LocalKind]) -> bool
    ensures { result ≡ agree_all (map (kind_of locals.now) (exprs_of es.now)) wanted.now }
{
    let mut left = es;
    let mut places = wanted;
    while let [e, rest @ ..] = left {
        let [kind, others @ ..] = places else {
            return false;
        };
        if !is_kind(*kind, kind_of(locals, e)) {
            return false;
        }
        left = rest;
        places = others;
    }
    places.is_empty()
}

/// Whether locals are as many as these kinds, and each of its kind.
pub fn fit_results(locals: &[Local], xs: &[u32], wanted: &[LocalKind]) -> bool
    ensures { result ≡ agree_all (map (kind_at locals.now) xs.now) wanted.now }
{
    let mut left = xs;
    let mut places = wanted;
    while let [x, rest @ ..] = left {
        let [kind, others @ ..] = places else {
            return false;
        };
        if !is_kind(*kind, kind_at(locals, *x)) {
            return false;
        }
        left = rest;
        places = others;
    }
    places.is_empty()
}
