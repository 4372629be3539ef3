//! Literals of structs.

ghost use Rattle.std.specs.Prelude.{◌≡◌, List as Seq, [], map, IfOk};
ghost use Rattle.gv_base.specs.declared.answers.Code.TheVariants as code;
ghost use Rattle.gv_gosyntax.specs.declared.generated.gosyntax_acts.Part.TheVariants.{Keyed as PKeyed, Expr as PExpr};
ghost use Rattle.gv_gosyntax.specs.declared.tree.Expr.{Expr as AnyExpr};
ghost use Rattle.gv_gosyntax.specs.declared.tree.KeyedExpr.{KeyedExpr as AnyKeyed};
ghost use Rattle.gv_gosyntax.specs.Nodes as tree;
ghost use Rattle.gv_gonodes.specs.Expr.{IsSomeExpr};
ghost use Rattle.gv_gonodes.specs.Keyed.{IsSomeKeyed};
ghost use Rattle.gv_gotypes.specs.Calls as spec;
ghost use Rattle.gv_gotypes.specs.Kinds as kinds;
ghost use Rattle.gv_gotypes.specs.Scopes.{name_in};
ghost use Rattle.gv_gotypes.specs.Types.{unless};
ghost use Rattle.gv_gotypes.specs.Trees.{keyed_of, expr_of};
ghost use Rattle.gv_gotyped.specs.First.{first_of};
ghost use Rattle.gv_gocalls.specs.Answers.{IsThisAnswer};
ghost use Rattle.gv_gocalls.specs.Lists.{keyed_one, keyed_alone};

use crate::answers::{Answer, Results};
use crate::made::{name_fault, pointer_to};
use gv_base::{Code, NoMemory};
use gv_gonodes::{KeyedNode, keyed_node};
use gv_goscopes::{Key, Scopes};
use gv_gosyntax::{Lexeme, Node};
use gv_gotyped::{Fault, earliest};
use gv_gotypes::Entity;
use gv_gowalk::{entity_of, placed_at};
use gv_operands::{Base, Want};
use std::alloc::Global;

// The keys of a literal, in order.
fn keys_at(alloc: Global, nodes: &[Node], at: usize) -> Result<Vec<Lexeme>, NoMemory>
    requires formed { tree.IsFormed nodes.now }
    requires some { IsSomeKeyed nodes.now at }
    ensures { (ks : Seq AnyKeyed) → tree.IsPartAt nodes.now at (PKeyed ks) → IfOk result (λ v. v.items ≡ map (λ k. k.key) ks) }
{
    let mut place = at;
    let mut keys = Vec::new(alloc);
    loop {
        match keyed_node(nodes, place) {
            KeyedNode::NoKeyed => break,
            KeyedNode::Keyed {
                fields,
                key,
                value: _,
            } => {
                keys.push(key)?;
                place = fields;
            }
            KeyedNode::PastKeyed { fields } => place = fields,
        }
    }
    keys.reverse();
    Ok(keys)
}

// The struct that a name stands for.
fn struct_in(entity: Option<Entity>) -> Option<Base>
    ensures { result ≡ kinds.struct_in entity }
{
    match entity {
        Some(Entity::StructOf(number)) => Some(Base::Struct(number)),
        _ => None,
    }
}

// A key in a literal of this struct, if it is one.
fn key_of<N: Scopes>(names: &N, base: Option<Base>, name: Lexeme) -> Key
    ensures wants { let fields = spec.fields_of (N.env names.now).declared base in
        result.wants ≡ spec.field_want fields (name_in (N.env names.now).source name) }
    ensures is_field { let fields = spec.fields_of (N.env names.now).declared base in
        result.is_field ≡ spec.is_field fields (name_in (N.env names.now).source name) }
{
    match base {
        Some(Base::Struct(number)) => names.key(number, name),
        _ => Key {
            wants: Want::Unknown,
            is_field: true,
        },
    }
}

fn field_fault(is_field: bool, start: u32) -> Option<Fault>
    ensures { result ≡ first_of (unless is_field start code.Undeclared) }
{
    if is_field {
        None
    } else {
        Some(Fault {
            start,
            code: Code::Undeclared,
        })
    }
}

// One key and its value.
fn keyed_one_at<N: Scopes>(
    names: &N,
    nodes: &[Node],
    key: Lexeme,
    value: usize,
    base: Option<Base>,
) -> Option<Fault>
    requires formed { tree.IsFormed nodes.now }
    requires some { IsSomeExpr nodes.now value }
    ensures { (e : AnyExpr) → tree.IsPartAt nodes.now value (PExpr e)
        → result ≡ first_of (keyed_one (N.env names.now) (spec.fields_of (N.env names.now).declared base) (record { key = key; value = expr_of e })) }
{
    let known = key_of(names, base, key);
    let field = field_fault(known.is_field, key.start);
    let misfit = placed_at(names, nodes, value, known.wants);
    earliest(field, misfit)
}

// All of them, whatever keys are there already.
fn values_at<N: Scopes>(names: &N, nodes: &[Node], at: usize, base: Option<Base>) -> Option<Fault>
    requires formed { tree.IsFormed nodes.now }
    requires some { IsSomeKeyed nodes.now at }
    ensures { (ks : Seq AnyKeyed) → tree.IsPartAt nodes.now at (PKeyed ks)
        → result ≡ first_of (keyed_alone (N.env names.now) (spec.fields_of (N.env names.now).declared base) (map keyed_of ks)) }
{
    let mut place = at;
    let mut first = None;
    loop {
        match keyed_node(nodes, place) {
            KeyedNode::NoKeyed => return first,
            KeyedNode::Keyed { fields, key, value } => {
                let fault = keyed_one_at(names, nodes, key, value, base);
                first = earliest(fault, first);
                place = fields;
            }
            KeyedNode::PastKeyed { fields } => place = fields,
        }
    }
}

// Keys and values of a literal.
fn keyed_at<N: Scopes>(
    alloc: Global,
    names: &N,
    nodes: &[Node],
    at: usize,
    base: Option<Base>,
) -> Result<Option<Fault>, NoMemory>
    requires formed { tree.IsFormed nodes.now }
    requires some { IsSomeKeyed nodes.now at }
    ensures { (ks : Seq AnyKeyed) → tree.IsPartAt nodes.now at (PKeyed ks)
        → IfOk result (λ first. first ≡ first_of (spec.keyed_findings (N.env names.now) (spec.fields_of (N.env names.now).declared base) [] (map keyed_of ks))) }
{
    let keys = keys_at(alloc, nodes, at)?;
    let again = names.first_again(alloc, &keys)?;
    let alone = values_at(names, nodes, at, base);
    Ok(earliest(alone, again))
}

/// `&NAME{..}`
pub(crate) fn literal_at<'a, N: Scopes>(
    alloc: Global,
    names: &N,
    nodes: &[Node],
    start: Lexeme,
    name: Lexeme,
    fields: usize,
) -> Result<Answer<'a>, NoMemory>
    requires formed { tree.IsFormed nodes.now }
    requires some { IsSomeKeyed nodes.now fields }
    ensures { (ks : Seq AnyKeyed) → tree.IsPartAt nodes.now fields (PKeyed ks)
        → IfOk result (λ known. IsThisAnswer known start.start (spec.literal_answer (N.env names.now) start name (map keyed_of ks))) }
{
    let entity = entity_of(names, name);
    let base = struct_in(entity);
    let own = name_fault(entity, base, name.start, start.start);
    let keyed = keyed_at(alloc, names, nodes, fields, base)?;
    Ok(Answer {
        start: start.start,
        results: Results::One(pointer_to(base)),
        first: earliest(own, keyed),
    })
}
