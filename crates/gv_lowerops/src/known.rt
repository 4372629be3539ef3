//! Operands of operands: each function makes of what is made of the parts what is made of the whole.

ghost use Rattle.std.specs.Prelude.{◌≡◌, Option as Maybe, Some, None, IfOk, length};
ghost use Rattle.gv_base.specs.declared.answers.Place.{Place as AnyPlace};
ghost use Rattle.gv_operands.specs.declared.types.GoType.{GoType as AnyGoType};
ghost use Rattle.gv_gotypes.specs.Trees as go;
ghost use Rattle.gv_gotypes.specs.Scopes.{Env};
ghost use Rattle.gv_gotypes.specs.Expressions as expr;
ghost use Rattle.gv_gotyped.specs.Operands.{IsOperand};
ghost use Rattle.gv_gotyped.specs.Parts.{IsMemberOf};
ghost use Rattle.gv_lowering.specs.Operands as lower;
ghost use Rattle.gv_lowering.specs.Operands.{Context};
ghost use Rattle.gv_lowerops.specs.declared.draft.Draft.{Draft as AnyDraft};
ghost use Rattle.gv_lowerops.specs.Tails.{IsTail, IsRead, IsLow, IsHigh, IsMark, IsTailBehind};

use crate::draft::{Draft, KnownBound, KnownRead, KnownTail, Mark, Read, Tail};
use crate::fields::Fields;
use crate::forms::{
    byte_of, constant_of, indexed, length_of, nil_of, own_type_of, selected, variable,
};
use crate::last::{Last, Reading};
use crate::operators::one_operand;
use crate::places::Places;
use crate::settling::settled;
use gv_base::{NoMemory, Place};
use gv_gosyntax::Lexeme;
use gv_gosyntax::generated::gosyntax_table::{CLASS_BYTE, CLASS_UINT64};
use gv_gotyped::{
    Member, Operand, convert_operand, index_operand, library_operand, literal_operand,
    name_operand, select_operand, slice_operand, unary_operand,
};
use gv_gotypes::Library;
use gv_gowalk::Names;
use gv_lang::{LocalKind, Pure};
use gv_operands::{Class, GoType};
use std::alloc::Global;

/// A constant is one number or truth value, whatever was made of its parts.
pub(crate) fn or_constant(made: KnownTail, mark: Mark) -> KnownTail
    ensures tail { (env : Env) (e : go.Expr) (old : AnyDraft) (t : lower.Tail) → IsMark old mark → IsOperand env e made.known
        → IsTailBehind old made.tail t → IsTailBehind old result.tail (lower.or_constant env e t) }
    ensures known { result.known ≡ made.known }
{
    let KnownTail { tail, known } = made;
    match constant_of(known.part.class) {
        Some(value) => KnownTail {
            tail: Tail {
                draft: tail.draft.back_to(mark),
                last: Last::Value(value),
            },
            known,
        },
        None => KnownTail { tail, known },
    }
}

/// A number, `true`, `false` or `nil`.
pub(crate) fn constant_at<N: Names>(
    names: &N,
    token: Lexeme,
    want: Option<GoType>,
    draft: Draft,
) -> KnownTail
    ensures { (c : Context) (at : AnyPlace) → IsTail c at (N.env names.now) draft (go.Constant token) want result }
{
    let mark = draft.mark();
    let value = names.value(token);
    let made = KnownTail {
        tail: Tail {
            draft,
            last: Last::Value(nil_of(want)),
        },
        known: literal_operand(token, value),
    };
    or_constant(made, mark)
}

/// A name.
pub(crate) fn name_at<N: Names, P: Places>(
    names: &N,
    places: &P,
    name: Lexeme,
    draft: Draft,
) -> Result<KnownTail, NoMemory>
    ensures { (at : AnyPlace) (want : Maybe AnyGoType) → IfOk result (λ made. IsTail (P.context places.now) at (N.env names.now) draft (go.Name name) want made) }
{
    let mark = draft.mark();
    let found = names.found(name);
    let constant = names.constant(found);
    let made = KnownTail {
        tail: Tail {
            draft,
            last: Last::Value(variable(places, found)?),
        },
        known: name_operand(name, found, constant),
    };
    Ok(or_constant(made, mark))
}

// A conversion of what is made of an operand.
fn conversion<P: Places>(places: &P, place: Place, word: u8, inner: Tail) -> Result<Tail, NoMemory>
    ensures { (old : AnyDraft) (t : lower.Tail) → IsTailBehind old inner t
        → IfOk result (λ made. IsTailBehind old made (lower.converted word t (lower.settled (P.context places.now) place (length old.temps.items) t))) }
{
    if word == CLASS_UINT64 {
        return Ok(inner);
    }
    let Read { draft, value } = settled(places, place, inner)?;
    let last = if word == CLASS_BYTE {
        byte_of(value)
    } else {
        length_of(value)
    };
    Ok(Tail { draft, last })
}

/// `len( )`, `uint64( )` or `byte( )`
pub(crate) fn converted<P: Places>(
    places: &P,
    place: Place,
    word: Lexeme,
    inner: KnownTail,
    mark: Mark,
) -> Result<KnownTail, NoMemory>
    ensures { (env : Env) (old : AnyDraft) (e : go.Expr) (want : Maybe AnyGoType) → IsMark old mark
        → IsTail (P.context places.now) place env old e None inner
        → IfOk result (λ made. IsTail (P.context places.now) place env old (go.Convert word e) want made) }
{
    let KnownTail { tail, known } = inner;
    let known = convert_operand(word, known);
    let tail = conversion(places, place, word.class, tail)?;
    Ok(or_constant(KnownTail { tail, known }, mark))
}

/// `! e` or `^ e`
pub(crate) fn unary_at(
    alloc: Global,
    sign: Lexeme,
    inner: KnownRead,
    mark: Mark,
) -> Result<KnownTail, NoMemory>
    ensures { (c : Context) (at : AnyPlace) (env : Env) (old : AnyDraft) (e : go.Expr) (want : Maybe AnyGoType) → IsMark old mark
        → IsRead c at env old e None inner → IfOk result (λ made. IsTail c at env old (go.Unary sign e) want made) }
{
    let KnownRead { read, known } = inner;
    let known = unary_operand(sign, known);
    let last = one_operand(alloc, sign.class, read.value)?;
    let tail = Tail {
        draft: read.draft,
        last,
    };
    Ok(or_constant(KnownTail { tail, known }, mark))
}

/// `PACKAGE.NAME`
pub(crate) fn package_member_at<N: Names>(
    names: &N,
    word: Lexeme,
    library: Library,
    name: Lexeme,
    draft: Draft,
) -> KnownTail
    ensures { (c : Context) (at : AnyPlace) (want : Maybe AnyGoType) → expr.library_of (N.env names.now) (go.Name word) ≡ Some library
        → IsTail c at (N.env names.now) draft (go.Select (go.Name word) name) want result }
{
    let mark = draft.mark();
    let member = names.library_member(library, name);
    let known = library_operand(word, name, member);
    let tail = Tail {
        draft,
        last: Last::Value(Pure::Nil),
    };
    or_constant(KnownTail { tail, known }, mark)
}

// What stands behind a point after an operand of this class.
fn member_of<N: Names>(names: &N, class: Option<Class>, name: Lexeme) -> Option<Member>
    ensures { IsMemberOf (N.env names.now) class name result }
{
    match class {
        Some(Class::Run(GoType::Pointer(base))) => names.member(base, name),
        _ => None,
    }
}

/// `e.NAME`, where e names no package.
pub(crate) fn selected_at<N: Fields>(
    names: &N,
    whole: KnownRead,
    name: Lexeme,
    mark: Mark,
) -> KnownTail
    ensures { (c : Context) (at : AnyPlace) (old : AnyDraft) (e : go.Expr) (want : Maybe AnyGoType) → IsMark old mark
        → IsRead c at (N.env names.now) old e None whole → expr.library_of (N.env names.now) e ≡ None
        → IsTail c at (N.env names.now) old (go.Select e name) want result }
{
    let KnownRead { read, known } = whole;
    let class = known.part.class;
    let member = member_of(names, class, name);
    let known = select_operand(known, name, member);
    let last = selected(names, name, class, read.value);
    let tail = Tail {
        draft: read.draft,
        last,
    };
    or_constant(KnownTail { tail, known }, mark)
}

/// `e[i]`, with what is made of e.
pub(crate) fn indexed_at(value: Pure, known: Operand, index: KnownRead) -> KnownTail
    ensures { (c : Context) (at : AnyPlace) (env : Env) (old mid : AnyDraft) (e i : go.Expr) (want : Maybe AnyGoType)
        → IsRead c at env old e None (record { read = record { draft = mid; value = value }; known = known }) → IsRead c at env mid i None index
        → IsTail c at env old (go.Index e i) want result }
{
    let KnownRead { read, known: place } = index;
    let last = indexed(own_type_of(known.part.class), value, read.value);
    KnownTail {
        tail: Tail {
            draft: read.draft,
            last,
        },
        known: index_operand(known, place),
    }
}

/// `e[a:b]`, with what is made of e and of its start.
pub(crate) fn sliced(
    whole: Pure,
    known: Operand,
    low: Pure,
    below: Option<Operand>,
    high: KnownBound,
) -> KnownTail
    ensures { (c : Context) (at : AnyPlace) (env : Env) (old first second : AnyDraft) (e : go.Expr) (a b : go.Bound) (want : Maybe AnyGoType)
        → IsRead c at env old e None (record { read = record { draft = first; value = whole }; known = known })
        → IsLow c at env first a (record { read = record { draft = second; value = low }; known = below })
        → IsHigh c at env second b whole high
        → IsTail c at env old (go.Slice e a b) want result }
{
    let KnownBound { read, known: above } = high;
    let last = Last::Reads(
        LocalKind::Slice,
        Reading::Sub {
            s: whole,
            a: low,
            b: read.value,
        },
    );
    KnownTail {
        tail: Tail {
            draft: read.draft,
            last,
        },
        known: slice_operand(known, below, above),
    }
}
