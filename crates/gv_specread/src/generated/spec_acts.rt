//! The parts of the spec language, and what acts make of them. Made by tools/grammar.py from spec.grammar: edit that.
ghost use Rattle.std.specs.Prelude.{◌≡◌, ◌≤◌, ◌<◌, ◌∷◌, [], true, reverse, Some, IsSome, OnOk, IfOk};
ghost use Rattle.gv_grammar.specs.Building.{has_tops, accepts, made_by, is_whole};
ghost use Rattle.gv_specread.specs.SpecActs.{is_disks, is_leased, is_fields, is_params, is_returns, is_allowed, is_picks, is_assigns, is_reply, is_body, is_ops, is_spec, made_spec, made_no_disks, made_one_disk, made_two_disks, made_no_fields, made_field, made_not_leased, made_leased, made_no_ops, made_op, made_no_params, made_param, made_next_param, made_no_return, made_return, made_all_allowed, made_allowed, made_body, made_no_picks, made_pick, made_no_assigns, made_first_assign, made_assign, made_no_reply, made_reply, spec_acts, spec_built};
ghost use Rattle.gv_termread.specs.declared.generated.term_acts.Part.TheVariants.{Token as PToken, Term as PTerm, Other as POther};
ghost use Rattle.gv_termread.specs.TermActs.{is_token, is_term};
ghost use Rattle.gv_specread.specs.declared.generated.spec_acts.SpecPart.TheVariants.{Disks as PDisks, Leased as PLeased, Fields as PFields, Params as PParams, Returns as PReturns, Allowed as PAllowed, Picks as PPicks, Assigns as PAssigns, Reply as PReply, Body as PBody, Ops as POps, Spec as PSpec};

use crate::generated::spec_table::{
    ACT_ALL_ALLOWED, ACT_ALLOWED, ACT_ASSIGN, ACT_BODY, ACT_FIELD, ACT_FIRST_ASSIGN, ACT_LEASED,
    ACT_NEXT_PARAM, ACT_NO_ASSIGNS, ACT_NO_DISKS, ACT_NO_FIELDS, ACT_NO_OPS, ACT_NO_PARAMS,
    ACT_NO_PICKS, ACT_NO_REPLY, ACT_NO_RETURN, ACT_NOT_LEASED, ACT_ONE_DISK, ACT_OP, ACT_PARAM,
    ACT_PICK, ACT_REPLY, ACT_RETURN, ACT_SPEC, ACT_TWO_DISKS,
};
use crate::making::{number_of, sort_of, span_of, with_item};
use crate::tree::{
    AssignTree, BodyTree, DisksTree, FieldTree, OpTree, ParamTree, PickTree, PlacedSort, ReplyTree,
    SpecTree,
};
use gv_base::List;
use gv_grammar::{FIRST_ACT, Step};
use gv_termread::generated::term_acts::{Part, make as make_included, pop_term, pop_token};
use gv_termread::generated::term_table::ACTS_END;
use gv_termread::{PlacedTerm, SeenToken};
use std::alloc::{AllocError, Global};

/// What a stretch of tokens was read as that no term has.
#[derive(Drop)]
pub enum SpecPart {
    Disks(DisksTree),
    Leased(bool),
    Fields(List<FieldTree>),
    Params(List<ParamTree>),
    Returns(Option<PlacedSort>),
    Allowed(Option<PlacedTerm>),
    Picks(List<PickTree>),
    Assigns(List<AssignTree>),
    Reply(Option<ReplyTree>),
    Body(BodyTree),
    Ops(List<OpTree>),
    Spec(SpecTree),
}

fn pop_disks(parts: &mut Vec<Part<SpecPart>>) -> DisksTree
    requires { has_tops (is_disks ∷ []) (reverse parts.old.items) ≡ true }
    ensures { reverse parts.old.items ≡ POther (PDisks result) ∷ reverse parts.new.items }
{
    match parts.pop() {
        Some(Part::Other(SpecPart::Disks(of))) => of,
        _ => unreachable!(),
    }
}

fn pop_leased(parts: &mut Vec<Part<SpecPart>>) -> bool
    requires { has_tops (is_leased ∷ []) (reverse parts.old.items) ≡ true }
    ensures { reverse parts.old.items ≡ POther (PLeased result) ∷ reverse parts.new.items }
{
    match parts.pop() {
        Some(Part::Other(SpecPart::Leased(of))) => of,
        _ => unreachable!(),
    }
}

fn pop_fields(parts: &mut Vec<Part<SpecPart>>) -> List<FieldTree>
    requires { has_tops (is_fields ∷ []) (reverse parts.old.items) ≡ true }
    ensures { reverse parts.old.items ≡ POther (PFields result) ∷ reverse parts.new.items }
{
    match parts.pop() {
        Some(Part::Other(SpecPart::Fields(of))) => of,
        _ => unreachable!(),
    }
}

fn pop_params(parts: &mut Vec<Part<SpecPart>>) -> List<ParamTree>
    requires { has_tops (is_params ∷ []) (reverse parts.old.items) ≡ true }
    ensures { reverse parts.old.items ≡ POther (PParams result) ∷ reverse parts.new.items }
{
    match parts.pop() {
        Some(Part::Other(SpecPart::Params(of))) => of,
        _ => unreachable!(),
    }
}

fn pop_returns(parts: &mut Vec<Part<SpecPart>>) -> Option<PlacedSort>
    requires { has_tops (is_returns ∷ []) (reverse parts.old.items) ≡ true }
    ensures { reverse parts.old.items ≡ POther (PReturns result) ∷ reverse parts.new.items }
{
    match parts.pop() {
        Some(Part::Other(SpecPart::Returns(of))) => of,
        _ => unreachable!(),
    }
}

fn pop_allowed(parts: &mut Vec<Part<SpecPart>>) -> Option<PlacedTerm>
    requires { has_tops (is_allowed ∷ []) (reverse parts.old.items) ≡ true }
    ensures { reverse parts.old.items ≡ POther (PAllowed result) ∷ reverse parts.new.items }
{
    match parts.pop() {
        Some(Part::Other(SpecPart::Allowed(of))) => of,
        _ => unreachable!(),
    }
}

fn pop_picks(parts: &mut Vec<Part<SpecPart>>) -> List<PickTree>
    requires { has_tops (is_picks ∷ []) (reverse parts.old.items) ≡ true }
    ensures { reverse parts.old.items ≡ POther (PPicks result) ∷ reverse parts.new.items }
{
    match parts.pop() {
        Some(Part::Other(SpecPart::Picks(of))) => of,
        _ => unreachable!(),
    }
}

fn pop_assigns(parts: &mut Vec<Part<SpecPart>>) -> List<AssignTree>
    requires { has_tops (is_assigns ∷ []) (reverse parts.old.items) ≡ true }
    ensures { reverse parts.old.items ≡ POther (PAssigns result) ∷ reverse parts.new.items }
{
    match parts.pop() {
        Some(Part::Other(SpecPart::Assigns(of))) => of,
        _ => unreachable!(),
    }
}

fn pop_reply(parts: &mut Vec<Part<SpecPart>>) -> Option<ReplyTree>
    requires { has_tops (is_reply ∷ []) (reverse parts.old.items) ≡ true }
    ensures { reverse parts.old.items ≡ POther (PReply result) ∷ reverse parts.new.items }
{
    match parts.pop() {
        Some(Part::Other(SpecPart::Reply(of))) => of,
        _ => unreachable!(),
    }
}

fn pop_body(parts: &mut Vec<Part<SpecPart>>) -> BodyTree
    requires { has_tops (is_body ∷ []) (reverse parts.old.items) ≡ true }
    ensures { reverse parts.old.items ≡ POther (PBody result) ∷ reverse parts.new.items }
{
    match parts.pop() {
        Some(Part::Other(SpecPart::Body(of))) => of,
        _ => unreachable!(),
    }
}

fn pop_ops(parts: &mut Vec<Part<SpecPart>>) -> List<OpTree>
    requires { has_tops (is_ops ∷ []) (reverse parts.old.items) ≡ true }
    ensures { reverse parts.old.items ≡ POther (POps result) ∷ reverse parts.new.items }
{
    match parts.pop() {
        Some(Part::Other(SpecPart::Ops(of))) => of,
        _ => unreachable!(),
    }
}

fn pop_spec(parts: &mut Vec<Part<SpecPart>>) -> SpecTree
    requires { has_tops (is_spec ∷ []) (reverse parts.old.items) ≡ true }
    ensures { reverse parts.old.items ≡ POther (PSpec result) ∷ reverse parts.new.items }
{
    match parts.pop() {
        Some(Part::Other(SpecPart::Spec(of))) => of,
        _ => unreachable!(),
    }
}

fn make_spec(parts: &mut Vec<Part<SpecPart>>) -> Result<(), AllocError>
    requires { has_tops (is_body ∷ is_token ∷ is_ops ∷ is_fields ∷ is_token ∷ is_disks ∷ is_token ∷ is_token ∷ is_token ∷ is_token ∷ []) (reverse parts.old.items) ≡ true }
    ensures { OnOk result (made_spec (reverse parts.old.items) ≡ reverse parts.new.items) }
{
    let crash = pop_body(parts);
    let _ = pop_token(parts);
    let ops = pop_ops(parts);
    let fields = pop_fields(parts);
    let _ = pop_token(parts);
    let disks = pop_disks(parts);
    let word = pop_token(parts);
    let _ = pop_token(parts);
    let name = pop_token(parts);
    let _ = pop_token(parts);
    let made = SpecTree {
        name: span_of(name),
        disks_start: word.start,
        disks,
        fields,
        ops,
        crash,
    };
    parts.push(Part::Other(SpecPart::Spec(made)))?;
    Ok(())
}

fn make_no_disks(parts: &mut Vec<Part<SpecPart>>) -> Result<(), AllocError>
    requires { has_tops (is_token ∷ []) (reverse parts.old.items) ≡ true }
    ensures { OnOk result (made_no_disks (reverse parts.old.items) ≡ reverse parts.new.items) }
{
    let _ = pop_token(parts);
    let made = DisksTree::Zero;
    parts.push(Part::Other(SpecPart::Disks(made)))?;
    Ok(())
}

fn make_one_disk(parts: &mut Vec<Part<SpecPart>>) -> Result<(), AllocError>
    requires { has_tops (is_token ∷ is_token ∷ []) (reverse parts.old.items) ≡ true }
    ensures { OnOk result (made_one_disk (reverse parts.old.items) ≡ reverse parts.new.items) }
{
    let blocks = pop_token(parts);
    let _ = pop_token(parts);
    let made = DisksTree::One(number_of(blocks));
    parts.push(Part::Other(SpecPart::Disks(made)))?;
    Ok(())
}

fn make_two_disks(parts: &mut Vec<Part<SpecPart>>) -> Result<(), AllocError>
    requires { has_tops (is_token ∷ is_token ∷ []) (reverse parts.old.items) ≡ true }
    ensures { OnOk result (made_two_disks (reverse parts.old.items) ≡ reverse parts.new.items) }
{
    let blocks = pop_token(parts);
    let _ = pop_token(parts);
    let made = DisksTree::Two(number_of(blocks));
    parts.push(Part::Other(SpecPart::Disks(made)))?;
    Ok(())
}

fn make_no_fields(alloc: Global, parts: &mut Vec<Part<SpecPart>>) -> Result<(), AllocError>
    ensures { OnOk result (made_no_fields (reverse parts.old.items) ≡ reverse parts.new.items) }
{
    let made = List::new(alloc);
    parts.push(Part::Other(SpecPart::Fields(made)))?;
    Ok(())
}

fn make_field(parts: &mut Vec<Part<SpecPart>>) -> Result<(), AllocError>
    requires { has_tops (is_token ∷ is_term ∷ is_token ∷ is_leased ∷ is_token ∷ is_token ∷ is_token ∷ is_token ∷ is_fields ∷ []) (reverse parts.old.items) ≡ true }
    ensures { OnOk result (made_field (reverse parts.old.items) ≡ reverse parts.new.items) }
{
    let _ = pop_token(parts);
    let first = pop_term(parts);
    let _ = pop_token(parts);
    let leased = pop_leased(parts);
    let sort = pop_token(parts);
    let _ = pop_token(parts);
    let name = pop_token(parts);
    let _ = pop_token(parts);
    let fields = pop_fields(parts);
    let made = with_item(
        fields,
        FieldTree {
            name: span_of(name),
            sort: sort_of(sort),
            leased,
            first,
        },
    )?;
    parts.push(Part::Other(SpecPart::Fields(made)))?;
    Ok(())
}

fn make_not_leased(parts: &mut Vec<Part<SpecPart>>) -> Result<(), AllocError>
    ensures { OnOk result (made_not_leased (reverse parts.old.items) ≡ reverse parts.new.items) }
{
    let made = false;
    parts.push(Part::Other(SpecPart::Leased(made)))?;
    Ok(())
}

fn make_leased(parts: &mut Vec<Part<SpecPart>>) -> Result<(), AllocError>
    requires { has_tops (is_token ∷ []) (reverse parts.old.items) ≡ true }
    ensures { OnOk result (made_leased (reverse parts.old.items) ≡ reverse parts.new.items) }
{
    let _ = pop_token(parts);
    let made = true;
    parts.push(Part::Other(SpecPart::Leased(made)))?;
    Ok(())
}

fn make_no_ops(alloc: Global, parts: &mut Vec<Part<SpecPart>>) -> Result<(), AllocError>
    ensures { OnOk result (made_no_ops (reverse parts.old.items) ≡ reverse parts.new.items) }
{
    let made = List::new(alloc);
    parts.push(Part::Other(SpecPart::Ops(made)))?;
    Ok(())
}

fn make_op(parts: &mut Vec<Part<SpecPart>>) -> Result<(), AllocError>
    requires { has_tops (is_body ∷ is_allowed ∷ is_returns ∷ is_token ∷ is_params ∷ is_token ∷ is_token ∷ is_token ∷ is_ops ∷ []) (reverse parts.old.items) ≡ true }
    ensures { OnOk result (made_op (reverse parts.old.items) ≡ reverse parts.new.items) }
{
    let body = pop_body(parts);
    let allowed = pop_allowed(parts);
    let returns = pop_returns(parts);
    let _ = pop_token(parts);
    let params = pop_params(parts);
    let _ = pop_token(parts);
    let name = pop_token(parts);
    let _ = pop_token(parts);
    let ops = pop_ops(parts);
    let made = with_item(
        ops,
        OpTree {
            name: span_of(name),
            params,
            returns,
            allowed,
            body,
        },
    )?;
    parts.push(Part::Other(SpecPart::Ops(made)))?;
    Ok(())
}

fn make_no_params(alloc: Global, parts: &mut Vec<Part<SpecPart>>) -> Result<(), AllocError>
    ensures { OnOk result (made_no_params (reverse parts.old.items) ≡ reverse parts.new.items) }
{
    let made = List::new(alloc);
    parts.push(Part::Other(SpecPart::Params(made)))?;
    Ok(())
}

fn make_param(parts: &mut Vec<Part<SpecPart>>) -> Result<(), AllocError>
    requires { has_tops (is_token ∷ is_token ∷ is_token ∷ is_params ∷ []) (reverse parts.old.items) ≡ true }
    ensures { OnOk result (made_param (reverse parts.old.items) ≡ reverse parts.new.items) }
{
    let sort = pop_token(parts);
    let _ = pop_token(parts);
    let name = pop_token(parts);
    let params = pop_params(parts);
    let made = with_item(
        params,
        ParamTree {
            name: span_of(name),
            sort: sort_of(sort),
        },
    )?;
    parts.push(Part::Other(SpecPart::Params(made)))?;
    Ok(())
}

fn make_next_param(parts: &mut Vec<Part<SpecPart>>) -> Result<(), AllocError>
    requires { has_tops (is_token ∷ is_token ∷ is_token ∷ is_token ∷ is_params ∷ []) (reverse parts.old.items) ≡ true }
    ensures { OnOk result (made_next_param (reverse parts.old.items) ≡ reverse parts.new.items) }
{
    let sort = pop_token(parts);
    let _ = pop_token(parts);
    let name = pop_token(parts);
    let _ = pop_token(parts);
    let params = pop_params(parts);
    let made = with_item(
        params,
        ParamTree {
            name: span_of(name),
            sort: sort_of(sort),
        },
    )?;
    parts.push(Part::Other(SpecPart::Params(made)))?;
    Ok(())
}

fn make_no_return(parts: &mut Vec<Part<SpecPart>>) -> Result<(), AllocError>
    ensures { OnOk result (made_no_return (reverse parts.old.items) ≡ reverse parts.new.items) }
{
    let made = None;
    parts.push(Part::Other(SpecPart::Returns(made)))?;
    Ok(())
}

fn make_return(parts: &mut Vec<Part<SpecPart>>) -> Result<(), AllocError>
    requires { has_tops (is_token ∷ is_token ∷ []) (reverse parts.old.items) ≡ true }
    ensures { OnOk result (made_return (reverse parts.old.items) ≡ reverse parts.new.items) }
{
    let sort = pop_token(parts);
    let _ = pop_token(parts);
    let made = Some(sort_of(sort));
    parts.push(Part::Other(SpecPart::Returns(made)))?;
    Ok(())
}

fn make_all_allowed(parts: &mut Vec<Part<SpecPart>>) -> Result<(), AllocError>
    ensures { OnOk result (made_all_allowed (reverse parts.old.items) ≡ reverse parts.new.items) }
{
    let made = None;
    parts.push(Part::Other(SpecPart::Allowed(made)))?;
    Ok(())
}

fn make_allowed(parts: &mut Vec<Part<SpecPart>>) -> Result<(), AllocError>
    requires { has_tops (is_term ∷ is_token ∷ []) (reverse parts.old.items) ≡ true }
    ensures { OnOk result (made_allowed (reverse parts.old.items) ≡ reverse parts.new.items) }
{
    let term = pop_term(parts);
    let _ = pop_token(parts);
    let made = Some(term);
    parts.push(Part::Other(SpecPart::Allowed(made)))?;
    Ok(())
}

fn make_body(parts: &mut Vec<Part<SpecPart>>) -> Result<(), AllocError>
    requires { has_tops (is_token ∷ is_reply ∷ is_assigns ∷ is_picks ∷ is_token ∷ []) (reverse parts.old.items) ≡ true }
    ensures { OnOk result (made_body (reverse parts.old.items) ≡ reverse parts.new.items) }
{
    let _ = pop_token(parts);
    let reply = pop_reply(parts);
    let assigns = pop_assigns(parts);
    let picks = pop_picks(parts);
    let brace = pop_token(parts);
    let made = BodyTree {
        start: brace.start,
        picks,
        assigns,
        reply,
    };
    parts.push(Part::Other(SpecPart::Body(made)))?;
    Ok(())
}

fn make_no_picks(alloc: Global, parts: &mut Vec<Part<SpecPart>>) -> Result<(), AllocError>
    ensures { OnOk result (made_no_picks (reverse parts.old.items) ≡ reverse parts.new.items) }
{
    let made = List::new(alloc);
    parts.push(Part::Other(SpecPart::Picks(made)))?;
    Ok(())
}

fn make_pick(parts: &mut Vec<Part<SpecPart>>) -> Result<(), AllocError>
    requires { has_tops (is_token ∷ is_term ∷ is_token ∷ is_token ∷ is_token ∷ is_picks ∷ []) (reverse parts.old.items) ≡ true }
    ensures { OnOk result (made_pick (reverse parts.old.items) ≡ reverse parts.new.items) }
{
    let _ = pop_token(parts);
    let bound = pop_term(parts);
    let _ = pop_token(parts);
    let name = pop_token(parts);
    let _ = pop_token(parts);
    let picks = pop_picks(parts);
    let made = with_item(
        picks,
        PickTree {
            name: span_of(name),
            bound,
        },
    )?;
    parts.push(Part::Other(SpecPart::Picks(made)))?;
    Ok(())
}

fn make_no_assigns(alloc: Global, parts: &mut Vec<Part<SpecPart>>) -> Result<(), AllocError>
    ensures { OnOk result (made_no_assigns (reverse parts.old.items) ≡ reverse parts.new.items) }
{
    let made = List::new(alloc);
    parts.push(Part::Other(SpecPart::Assigns(made)))?;
    Ok(())
}

fn make_first_assign(alloc: Global, parts: &mut Vec<Part<SpecPart>>) -> Result<(), AllocError>
    requires { has_tops (is_token ∷ is_term ∷ is_token ∷ is_token ∷ []) (reverse parts.old.items) ≡ true }
    ensures { OnOk result (made_first_assign (reverse parts.old.items) ≡ reverse parts.new.items) }
{
    let _ = pop_token(parts);
    let term = pop_term(parts);
    let _ = pop_token(parts);
    let name = pop_token(parts);
    let made = with_item(
        List::new(alloc),
        AssignTree {
            name: span_of(name),
            term,
        },
    )?;
    parts.push(Part::Other(SpecPart::Assigns(made)))?;
    Ok(())
}

fn make_assign(parts: &mut Vec<Part<SpecPart>>) -> Result<(), AllocError>
    requires { has_tops (is_token ∷ is_term ∷ is_token ∷ is_token ∷ is_assigns ∷ []) (reverse parts.old.items) ≡ true }
    ensures { OnOk result (made_assign (reverse parts.old.items) ≡ reverse parts.new.items) }
{
    let _ = pop_token(parts);
    let term = pop_term(parts);
    let _ = pop_token(parts);
    let name = pop_token(parts);
    let assigns = pop_assigns(parts);
    let made = with_item(
        assigns,
        AssignTree {
            name: span_of(name),
            term,
        },
    )?;
    parts.push(Part::Other(SpecPart::Assigns(made)))?;
    Ok(())
}

fn make_no_reply(parts: &mut Vec<Part<SpecPart>>) -> Result<(), AllocError>
    ensures { OnOk result (made_no_reply (reverse parts.old.items) ≡ reverse parts.new.items) }
{
    let made = None;
    parts.push(Part::Other(SpecPart::Reply(made)))?;
    Ok(())
}

fn make_reply(parts: &mut Vec<Part<SpecPart>>) -> Result<(), AllocError>
    requires { has_tops (is_token ∷ is_term ∷ is_token ∷ []) (reverse parts.old.items) ≡ true }
    ensures { OnOk result (made_reply (reverse parts.old.items) ≡ reverse parts.new.items) }
{
    let _ = pop_token(parts);
    let term = pop_term(parts);
    let word = pop_token(parts);
    let made = Some(ReplyTree {
        start: word.start,
        term,
    });
    parts.push(Part::Other(SpecPart::Reply(made)))?;
    Ok(())
}

/// Does an act on the parts, the last of them on top.
fn make(
    alloc: Global,
    text: &[u8],
    act: u8,
    parts: &mut Vec<Part<SpecPart>>,
) -> Result<(), AllocError>
    requires behind_marks { FIRST_ACT ≤ act }
    requires accepted { accepts (spec_acts text.now) act (reverse parts.old.items) ≡ true }
    ensures { OnOk result (made_by (spec_acts text.now) act (reverse parts.old.items) ≡ reverse parts.new.items) }
{
    if act < ACTS_END {
        return make_included(alloc, text, act, parts);
    }
    match act {
        ACT_SPEC => make_spec(parts),
        ACT_NO_DISKS => make_no_disks(parts),
        ACT_ONE_DISK => make_one_disk(parts),
        ACT_TWO_DISKS => make_two_disks(parts),
        ACT_NO_FIELDS => make_no_fields(alloc, parts),
        ACT_FIELD => make_field(parts),
        ACT_NOT_LEASED => make_not_leased(parts),
        ACT_LEASED => make_leased(parts),
        ACT_NO_OPS => make_no_ops(alloc, parts),
        ACT_OP => make_op(parts),
        ACT_NO_PARAMS => make_no_params(alloc, parts),
        ACT_PARAM => make_param(parts),
        ACT_NEXT_PARAM => make_next_param(parts),
        ACT_NO_RETURN => make_no_return(parts),
        ACT_RETURN => make_return(parts),
        ACT_ALL_ALLOWED => make_all_allowed(parts),
        ACT_ALLOWED => make_allowed(parts),
        ACT_BODY => make_body(parts),
        ACT_NO_PICKS => make_no_picks(alloc, parts),
        ACT_PICK => make_pick(parts),
        ACT_NO_ASSIGNS => make_no_assigns(alloc, parts),
        ACT_FIRST_ASSIGN => make_first_assign(alloc, parts),
        ACT_ASSIGN => make_assign(parts),
        ACT_NO_REPLY => make_no_reply(parts),
        ACT_REPLY => make_reply(parts),
        _ => unreachable!(),
    }
}

/// The parts that the steps leave of the tokens.
fn build_parts(
    alloc: Global,
    text: &[u8],
    steps: &[Step],
    tokens: &[SeenToken],
) -> Result<Vec<Part<SpecPart>>, AllocError>
    requires { IsSome (spec_built text.now steps.now tokens.now) }
    ensures { IfOk result (λ parts. spec_built text.now steps.now tokens.now ≡ Some (reverse parts.items)) }
{
    let mut parts = Vec::new(alloc);
    let mut rest = tokens;
    for step in steps {
        match step {
            Step::Take => {
                let Some((token, after)) = rest.split_first() else {
                    unreachable!()
                };
                parts.push(Part::Token(*token))?;
                rest = after;
            }
            Step::Do(act) => {
                if *act >= FIRST_ACT {
                    make(alloc, text, *act, &mut parts)?;
                }
            }
        }
    }
    Ok(parts)
}

/// What the steps of a derivation of a whole Text build of its tokens.
pub fn build_spec(
    alloc: Global,
    text: &[u8],
    steps: &[Step],
    tokens: &[SeenToken],
) -> Result<SpecTree, AllocError>
    requires { is_whole is_spec (spec_built text.now steps.now tokens.now) ≡ true }
    ensures { IfOk result (λ whole. spec_built text.now steps.now tokens.now ≡ Some (POther (PSpec whole) ∷ [])) }
{
    let mut parts = build_parts(alloc, text, steps, tokens)?;
    Ok(pop_spec(&mut parts))
}
