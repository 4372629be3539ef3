//! Trees as a table writes them: each node by the form of its act, where a digit stands for a part, a capital letter for one
//! from the tenth on, and everything else for itself, but `~`: a space where something stands before it.

use anyhow::Result;
use anyhow::bail;
use gv_scriptsyntax::Node;
use gv_scriptsyntax::Tree;
use gv_scriptsyntax::generated::script_acts::TAKEN;
use gv_scriptsyntax::generated::script_table::ACT_ABSURD;
use gv_scriptsyntax::generated::script_table::ACT_ALONE;
use gv_scriptsyntax::generated::script_table::ACT_ARM;
use gv_scriptsyntax::generated::script_table::ACT_AT;
use gv_scriptsyntax::generated::script_table::ACT_AT_HOLE;
use gv_scriptsyntax::generated::script_table::ACT_ATOM;
use gv_scriptsyntax::generated::script_table::ACT_AXIOM;
use gv_scriptsyntax::generated::script_table::ACT_BLOCK;
use gv_scriptsyntax::generated::script_table::ACT_BOOK;
use gv_scriptsyntax::generated::script_table::ACT_BOOK_ATOM;
use gv_scriptsyntax::generated::script_table::ACT_BOOT;
use gv_scriptsyntax::generated::script_table::ACT_BY_CASES;
use gv_scriptsyntax::generated::script_table::ACT_CASE;
use gv_scriptsyntax::generated::script_table::ACT_CASES;
use gv_scriptsyntax::generated::script_table::ACT_CELL_ATOM;
use gv_scriptsyntax::generated::script_table::ACT_CLASH;
use gv_scriptsyntax::generated::script_table::ACT_COMMAND;
use gv_scriptsyntax::generated::script_table::ACT_CONTRA;
use gv_scriptsyntax::generated::script_table::ACT_CUT;
use gv_scriptsyntax::generated::script_table::ACT_DONE_ATOM;
use gv_scriptsyntax::generated::script_table::ACT_DURING;
use gv_scriptsyntax::generated::script_table::ACT_EACH_ATOM;
use gv_scriptsyntax::generated::script_table::ACT_FACT;
use gv_scriptsyntax::generated::script_table::ACT_FACTOR;
use gv_scriptsyntax::generated::script_table::ACT_FIELD_ATOM;
use gv_scriptsyntax::generated::script_table::ACT_FILLED;
use gv_scriptsyntax::generated::script_table::ACT_FILLED_PARENS;
use gv_scriptsyntax::generated::script_table::ACT_FOLD;
use gv_scriptsyntax::generated::script_table::ACT_FORGET;
use gv_scriptsyntax::generated::script_table::ACT_GIVEN;
use gv_scriptsyntax::generated::script_table::ACT_GUARD;
use gv_scriptsyntax::generated::script_table::ACT_HALVES_NEW;
use gv_scriptsyntax::generated::script_table::ACT_HALVES_SET;
use gv_scriptsyntax::generated::script_table::ACT_HAVE;
use gv_scriptsyntax::generated::script_table::ACT_HELD;
use gv_scriptsyntax::generated::script_table::ACT_HOLE;
use gv_scriptsyntax::generated::script_table::ACT_HOLE_TERMS;
use gv_scriptsyntax::generated::script_table::ACT_IN_ATOMS;
use gv_scriptsyntax::generated::script_table::ACT_IN_ITEMS;
use gv_scriptsyntax::generated::script_table::ACT_IN_NAMES;
use gv_scriptsyntax::generated::script_table::ACT_IN_PARS;
use gv_scriptsyntax::generated::script_table::ACT_IN_TERMS;
use gv_scriptsyntax::generated::script_table::ACT_INST;
use gv_scriptsyntax::generated::script_table::ACT_INST_ATOM;
use gv_scriptsyntax::generated::script_table::ACT_ITEM;
use gv_scriptsyntax::generated::script_table::ACT_LAST;
use gv_scriptsyntax::generated::script_table::ACT_LET;
use gv_scriptsyntax::generated::script_table::ACT_LINEAR;
use gv_scriptsyntax::generated::script_table::ACT_LOCK_ATOM;
use gv_scriptsyntax::generated::script_table::ACT_MAP;
use gv_scriptsyntax::generated::script_table::ACT_MERGE;
use gv_scriptsyntax::generated::script_table::ACT_NAME;
use gv_scriptsyntax::generated::script_table::ACT_NEGATIVE;
use gv_scriptsyntax::generated::script_table::ACT_NEXT_ARM;
use gv_scriptsyntax::generated::script_table::ACT_NEXT_ATOM;
use gv_scriptsyntax::generated::script_table::ACT_NEXT_BLOCK;
use gv_scriptsyntax::generated::script_table::ACT_NEXT_CASE;
use gv_scriptsyntax::generated::script_table::ACT_NEXT_FACTOR;
use gv_scriptsyntax::generated::script_table::ACT_NEXT_NAME;
use gv_scriptsyntax::generated::script_table::ACT_NEXT_PAR;
use gv_scriptsyntax::generated::script_table::ACT_NEXT_TERM;
use gv_scriptsyntax::generated::script_table::ACT_NO_DURING;
use gv_scriptsyntax::generated::script_table::ACT_NO_OWN;
use gv_scriptsyntax::generated::script_table::ACT_NO_TERM;
use gv_scriptsyntax::generated::script_table::ACT_ON_ATOM;
use gv_scriptsyntax::generated::script_table::ACT_ON_BLOCK;
use gv_scriptsyntax::generated::script_table::ACT_ON_PAIR;
use gv_scriptsyntax::generated::script_table::ACT_ONE_ATOM;
use gv_scriptsyntax::generated::script_table::ACT_OP;
use gv_scriptsyntax::generated::script_table::ACT_OWN;
use gv_scriptsyntax::generated::script_table::ACT_PAR;
use gv_scriptsyntax::generated::script_table::ACT_POSITIVE;
use gv_scriptsyntax::generated::script_table::ACT_PRED;
use gv_scriptsyntax::generated::script_table::ACT_PROC;
use gv_scriptsyntax::generated::script_table::ACT_REWRITE;
use gv_scriptsyntax::generated::script_table::ACT_SCRIPT;
use gv_scriptsyntax::generated::script_table::ACT_SET_BOOK;
use gv_scriptsyntax::generated::script_table::ACT_SIM;
use gv_scriptsyntax::generated::script_table::ACT_STEP;
use gv_scriptsyntax::generated::script_table::ACT_STEP_HAVE;
use gv_scriptsyntax::generated::script_table::ACT_STEPS;
use gv_scriptsyntax::generated::script_table::ACT_SUBST;
use gv_scriptsyntax::generated::script_table::ACT_TERM;
use gv_scriptsyntax::generated::script_table::ACT_THREE_ATOM;
use gv_scriptsyntax::generated::script_table::ACT_TO;
use gv_scriptsyntax::generated::script_table::ACT_TOKEN_ATOM;
use gv_scriptsyntax::generated::script_table::ACT_TWO_ATOM;
use gv_scriptsyntax::generated::script_table::ACT_UNFOLD;
use gv_scriptsyntax::generated::script_table::ACT_UNFOLD_ARMS;
use gv_scriptsyntax::generated::script_table::ACT_VOID;
use gv_scriptsyntax::generated::script_table::ACT_WORD_NAMES;
use gv_scriptsyntax::generated::script_table::ACT_WORD_TERM;
use gv_scriptsyntax::generated::script_table::ACT_WORD_TERMS;
use gv_scriptsyntax::generated::script_table::ACT_YIELD;
use gv_termread::SeenToken;
use gv_termread::generated::term_table::ACT_BINARY;
use gv_termread::generated::term_table::ACT_CONSTANT;
use gv_termread::generated::term_table::ACT_MAKER;
use gv_termread::generated::term_table::ACT_NUMBER;
use gv_termread::generated::term_table::ACT_OF_ONE;
use gv_termread::generated::term_table::ACT_OF_THREE;
use gv_termread::generated::term_table::ACT_OF_TWO;
use gv_termread::generated::term_table::ACT_PAREN;
use gv_termread::generated::term_table::ACT_UNARY;
use gv_termread::generated::term_table::ACT_VARIABLE;
use std::alloc::Global;

/// The forms; an act that stands in none of them begins a list, and prints nothing.
static FORMS: [(u8, &str); 104] = [
    (ACT_BINARY, "(1 2 3)"),
    (ACT_UNARY, "(12)"),
    (ACT_NUMBER, "1"),
    (ACT_CONSTANT, "1"),
    (ACT_VARIABLE, "1"),
    (ACT_PAREN, "paren(2)"),
    (ACT_MAKER, "1(3 5)"),
    (ACT_OF_ONE, "1(3)"),
    (ACT_OF_TWO, "1(3 5)"),
    (ACT_OF_THREE, "1(3 5 7)"),
    (ACT_NAME, "1~2"),
    (ACT_NEXT_NAME, "1~3"),
    (ACT_IN_NAMES, "(2)"),
    (ACT_PAR, "1~2:4"),
    (ACT_NEXT_PAR, "1~3:5"),
    (ACT_IN_PARS, "(2)"),
    (ACT_TERM, "1~2"),
    (ACT_NEXT_TERM, "1~3"),
    (ACT_IN_TERMS, "(2)"),
    (ACT_WORD_TERMS, "2"),
    (ACT_NO_TERM, "-"),
    (ACT_WORD_TERM, "2"),
    (ACT_INST, "12"),
    (ACT_NO_OWN, "-"),
    (ACT_OWN, "2"),
    (ACT_ONE_ATOM, "1[3]"),
    (ACT_TWO_ATOM, "1[3 5]"),
    (ACT_THREE_ATOM, "1[3 5 7]"),
    (ACT_CELL_ATOM, "1[3 5 7]"),
    (ACT_FIELD_ATOM, "1[3 5]"),
    (ACT_BOOK_ATOM, "1[3 5 7]"),
    (ACT_LOCK_ATOM, "1[3 5]"),
    (ACT_TOKEN_ATOM, "1[3 5 (6)]"),
    (ACT_DONE_ATOM, "1[3 4]"),
    (ACT_EACH_ATOM, "1[3 5 7 8: A]"),
    (ACT_INST_ATOM, "1"),
    (ACT_ATOM, "1~2"),
    (ACT_NEXT_ATOM, "1~3"),
    (ACT_IN_ATOMS, "(2)"),
    (ACT_FACT, "1"),
    (ACT_HELD, "held 1"),
    (ACT_ITEM, "1~2;"),
    (ACT_IN_ITEMS, "{2}"),
    (ACT_POSITIVE, "1*2"),
    (ACT_NEGATIVE, "12*3"),
    (ACT_FACTOR, "1~2"),
    (ACT_NEXT_FACTOR, "1~3"),
    (ACT_GIVEN, "1"),
    (ACT_AXIOM, "(1 2 3)"),
    (ACT_SUBST, "(1 2 3)"),
    (ACT_CONTRA, "(1 2)"),
    (ACT_LINEAR, "(1 [3] (6))"),
    (ACT_BY_CASES, "(1 2 4 7)"),
    (ACT_STEPS, "(1 [3] 4)"),
    (ACT_HOLE, "1"),
    (ACT_STEP_HAVE, "1~(2 3 5)"),
    (ACT_HOLE_TERMS, "(2)"),
    (ACT_FILLED, "1"),
    (ACT_FILLED_PARENS, "(2)"),
    (ACT_FOLD, "(1 2 3 4)"),
    (ACT_UNFOLD, "(1 2 3)"),
    (ACT_UNFOLD_ARMS, "(1 2 [3])"),
    (ACT_ON_ATOM, "(1 2)"),
    (ACT_HAVE, "(1 2 4)"),
    (ACT_LET, "(1 2 4)"),
    (ACT_REWRITE, "(1 2 4)"),
    (ACT_ABSURD, "(1 3)"),
    (ACT_CLASH, "(1 2)"),
    (ACT_CASES, "(1 2 3 4)"),
    (ACT_ON_PAIR, "(1 2 4)"),
    (ACT_HALVES_NEW, "(1 2 3 5)"),
    (ACT_HALVES_SET, "(1 2 3 4)"),
    (ACT_AT, "(1 2 4)"),
    (ACT_AT_HOLE, "(1 2 4)"),
    (ACT_MAP, "(1 2 4 6 7)"),
    (ACT_ALONE, "1"),
    (ACT_SIM, "(1 2 with3)"),
    (ACT_ON_BLOCK, "(1 2)"),
    (ACT_BOOT, "(1 with2)"),
    (ACT_GUARD, "(1 2 3)"),
    (ACT_SET_BOOK, "(1 2 3 5)"),
    (ACT_FORGET, "(1 2 3 5)"),
    (ACT_STEP, "(1 with2 as3 4 [5])"),
    (ACT_TO, "(1 2 3)"),
    (ACT_MERGE, "(1 2 4 6)"),
    (ACT_VOID, "(1 2)"),
    (ACT_YIELD, "(1 2 4 8 A C)"),
    (ACT_WORD_NAMES, "2"),
    (ACT_NO_DURING, "-"),
    (ACT_DURING, "2"),
    (ACT_NEXT_BLOCK, "1~2"),
    (ACT_NEXT_ARM, "1~2"),
    (ACT_ARM, "{2 3}"),
    (ACT_COMMAND, "1~2;"),
    (ACT_LAST, "1~2;"),
    (ACT_BLOCK, "{2}"),
    (ACT_CASE, "(1 2 3)"),
    (ACT_NEXT_CASE, "1~2"),
    (ACT_BOOK, "1~(2 3 5 6 8)"),
    (ACT_PRED, "1~(2 3 4 6)"),
    (ACT_CUT, "1~(2 3 5 6 8 A B C)"),
    (ACT_OP, "1~(2 3 4 [5])"),
    (ACT_PROC, "1~(2 3 4 6 8 A B C [D])"),
    (ACT_SCRIPT, "[1] [2] 4 7 A C [D] [E] [F]"),
];

fn form_of(act: u8) -> &'static str {
    match FORMS.iter().find(|form| form.0 == act) {
        Some(form) => form.1,
        None => "",
    }
}

// The number of the part that a sign stands for, from 1.
fn part_of(sign: char) -> Option<usize> {
    if sign.is_ascii_digit() || sign.is_ascii_uppercase() {
        sign.to_digit(36).map(|digit| digit as usize)
    } else {
        None
    }
}

// A part by its form, of the parts that it is made of, the lowest first.
fn filled(alloc: Global, form: &str, parts: &[String]) -> Result<String> {
    let mut out = String::new(alloc);
    for sign in form.chars() {
        match part_of(sign) {
            Some(number) => match parts.get(number.wrapping_sub(1)) {
                Some(part) => out.push_str(part.as_str())?,
                None => bail!("no such part: {form}"),
            },
            None if sign != '~' => out.push(sign)?,
            None if !out.is_empty() => out.push(' ')?,
            None => {}
        }
    }
    Ok(out)
}

// The bytes of a token.
fn spelled(alloc: Global, text: &[u8], token: SeenToken) -> Result<String> {
    match text.get(token.start as usize..token.end as usize) {
        Some(bytes) => Ok(String::from_utf8_lossy(alloc, bytes)?),
        None => bail!("a token outside of the text"),
    }
}

// Puts a node in place of the parts that it is made of.
fn push_node(alloc: Global, text: &[u8], node: Node, parts: &mut Vec<String>) -> Result<()> {
    match node {
        Node::Token(token) => parts.push(spelled(alloc, text, token)?)?,
        Node::Made { act, from: _ } => {
            let taken = TAKEN.get(act as usize).copied().unwrap_or(0) as usize;
            let kept = parts.len().saturating_sub(taken);
            let made = filled(alloc, form_of(act), &parts[kept..])?;
            parts.truncate(kept);
            parts.push(made)?;
        }
    }
    Ok(())
}

/// A tree as a table writes it.
pub(crate) fn printed(alloc: Global, text: &[u8], tree: &Tree) -> Result<String> {
    let mut parts: Vec<String> = Vec::new(alloc);
    for node in &tree.nodes {
        push_node(alloc, text, *node, &mut parts)?;
    }
    match parts.pop() {
        Some(whole) => Ok(whole),
        None => bail!("a tree without nodes"),
    }
}
