//! Trees as a table writes them: each node by the form of its act, where a digit stands for a part and everything else for
//! itself, but `~`: a space where something stands before it.

use anyhow::{Result, bail};
use gv_gosyntax::generated::gosyntax_acts::TAKEN;
use gv_gosyntax::generated::gosyntax_table::{
    ACT_ASSIGN, ACT_BINARY, ACT_BLOCK, ACT_BLOCK_TYPE, ACT_BOUND, ACT_CALL, ACT_CONST,
    ACT_CONSTANT, ACT_CONVERT, ACT_COUNT, ACT_DECL, ACT_DO, ACT_EMPTY, ACT_EXPR, ACT_FILE, ACT_FOR,
    ACT_FOREVER, ACT_FUNC, ACT_GO, ACT_GROUP, ACT_IF, ACT_IF_ELSE, ACT_IMPORT, ACT_IN_PARENS,
    ACT_INDEX, ACT_JUMP, ACT_KEYED, ACT_LEFT, ACT_LITERAL, ACT_MAKE, ACT_MAKE_LENGTH, ACT_MAP_TYPE,
    ACT_MUTEX, ACT_NAME, ACT_NAMED, ACT_NESTED, ACT_NEW, ACT_NO_BOUND, ACT_NO_PART,
    ACT_NO_RECEIVER, ACT_OPERAND, ACT_PAIR, ACT_PAREN, ACT_PART, ACT_PAST_EXPRS, ACT_PAST_GROUPS,
    ACT_PAST_KEYED, ACT_PAST_NAMES, ACT_PAST_RIGHTS, ACT_PAST_STMTS, ACT_PAST_TYPES,
    ACT_POINTER_TYPE, ACT_POINTERS_TYPE, ACT_RECEIVER, ACT_RESULT, ACT_RETURN, ACT_RIGHT,
    ACT_SELECT, ACT_SIMPLE, ACT_SLICE_FROM, ACT_SLICE_TO, ACT_SLICE_TYPE, ACT_STMT, ACT_STRUCT,
    ACT_TYPE, ACT_TYPED_CONST, ACT_UNARY, ACT_UPDATE, ACT_VALUE, ACT_VAR, ACT_VAR_VALUE, ACT_WHILE,
    ACT_WORD_TYPE,
};
use gv_gosyntax::{Lexeme, Node, Tree};
use std::alloc::Global;

/// The forms; an act that stands in none of them begins a list, and prints nothing.
static FORMS: [(u8, &str); 73] = [
    (ACT_NAME, "1~2"),
    (ACT_PAST_NAMES, "1"),
    (ACT_IN_PARENS, "2"),
    (ACT_CONSTANT, "1"),
    (ACT_OPERAND, "1"),
    (ACT_PAREN, "paren(2)"),
    (ACT_CONVERT, "1(3)"),
    (ACT_SELECT, "(1.3)"),
    (ACT_INDEX, "(1[3])"),
    (ACT_SLICE_TO, "(1[:4])"),
    (ACT_SLICE_FROM, "(1[3:5])"),
    (ACT_UNARY, "(12)"),
    (ACT_BINARY, "(1 2 3)"),
    (ACT_NO_BOUND, "-"),
    (ACT_BOUND, "1"),
    (ACT_EXPR, "1~2"),
    (ACT_PAST_EXPRS, "1"),
    (ACT_CALL, "call(1: 3)"),
    (ACT_PAIR, "1(3 5)"),
    (ACT_MAKE, "1(3)"),
    (ACT_MAKE_LENGTH, "1(3 5)"),
    (ACT_NEW, "1(3.5)"),
    (ACT_KEYED, "1~2:4"),
    (ACT_PAST_KEYED, "1"),
    (ACT_LITERAL, "&2{4}"),
    (ACT_VALUE, "1"),
    (ACT_RESULT, "1"),
    (ACT_LEFT, "1"),
    (ACT_ASSIGN, "(1 2 3)"),
    (ACT_COUNT, "(1 2)"),
    (ACT_UPDATE, "(1 2 3)"),
    (ACT_DO, "do 1"),
    (ACT_NO_PART, "-"),
    (ACT_PART, "1"),
    (ACT_STMT, "1~2"),
    (ACT_EMPTY, "1~empty"),
    (ACT_PAST_STMTS, "1"),
    (ACT_BLOCK, "{2}"),
    (ACT_SIMPLE, "1"),
    (ACT_VAR, "(1 2 3)"),
    (ACT_VAR_VALUE, "(1 2 3 = 5)"),
    (ACT_IF, "(1 2 3)"),
    (ACT_IF_ELSE, "(1 2 3 4 5)"),
    (ACT_NESTED, "block1"),
    (ACT_JUMP, "1"),
    (ACT_FOREVER, "(1 2)"),
    (ACT_WHILE, "(1 2 3)"),
    (ACT_FOR, "(1 2; 4; 6 7)"),
    (ACT_RIGHT, "1~2"),
    (ACT_PAST_RIGHTS, "1"),
    (ACT_RETURN, "1[2]"),
    (ACT_GO, "(1 5)"),
    (ACT_NAMED, "1"),
    (ACT_MUTEX, "1.3"),
    (ACT_WORD_TYPE, "1"),
    (ACT_SLICE_TYPE, "[]3"),
    (ACT_POINTERS_TYPE, "[]*4"),
    (ACT_MAP_TYPE, "1"),
    (ACT_POINTER_TYPE, "*2"),
    (ACT_BLOCK_TYPE, "1.3"),
    (ACT_GROUP, "1~(2: 3)"),
    (ACT_PAST_GROUPS, "1"),
    (ACT_TYPE, "1~2"),
    (ACT_PAST_TYPES, "1"),
    (ACT_NO_RECEIVER, "-"),
    (ACT_RECEIVER, "(2 *4)"),
    (ACT_STRUCT, "(struct 2 [5])"),
    (ACT_CONST, "(const 2 = 4)"),
    (ACT_TYPED_CONST, "(const 2 3 = 5)"),
    (ACT_FUNC, "(func 2 3 [5] [7] 8)"),
    (ACT_IMPORT, "1~[3]"),
    (ACT_DECL, "1~2"),
    (ACT_FILE, "2 [4] [5]"),
];

fn form_of(act: u8) -> &'static str {
    match FORMS.iter().find(|form| form.0 == act) {
        Some(form) => form.1,
        None => "",
    }
}

// A part by its form, of the parts that it is made of, the lowest first.
fn filled(alloc: Global, form: &str, parts: &[String]) -> Result<String> {
    let mut out = String::new(alloc);
    for sign in form.chars() {
        match sign.to_digit(10) {
            Some(digit) => match parts.get((digit as usize).wrapping_sub(1)) {
                Some(part) => out.push_str(part.as_str())?,
                None => bail!("no such part: {form}"),
            },
            None if sign != '~' => out.push(sign)?,
            None if !out.is_empty() => out.push(' ')?,
            None => {}
        }
    }
    Ok(out)
}

// The bytes of a token; a semicolon that stands for the end of a line has none.
fn spelled(alloc: Global, text: &[u8], token: Lexeme) -> Result<String> {
    match text.get(token.start as usize..token.end as usize) {
        Some(bytes) => Ok(String::from_utf8_lossy(alloc, bytes)?),
        None => bail!("a token outside of the text"),
    }
}

// Puts a node in place of the parts that it is made of.
fn push_node(alloc: Global, text: &[u8], node: Node, parts: &mut Vec<String>) -> Result<()> {
    match node {
        Node::Token(token) => parts.push(spelled(alloc, text, token)?)?,
        Node::Made { act, from: _ } => {
            let taken = TAKEN.get(act as usize).copied().unwrap_or(0) as usize;
            let kept = parts.len().saturating_sub(taken);
            let made = filled(alloc, form_of(act), &parts[kept..])?;
            parts.truncate(kept);
            parts.push(made)?;
        }
    }
    Ok(())
}

/// A tree as a table writes it.
pub(crate) fn printed(alloc: Global, text: &[u8], tree: &Tree) -> Result<String> {
    let mut parts: Vec<String> = Vec::new(alloc);
    for node in &tree.nodes {
        push_node(alloc, text, *node, &mut parts)?;
    }
    match parts.pop() {
        Some(whole) => Ok(whole),
        None => bail!("a tree without nodes"),
    }
}
