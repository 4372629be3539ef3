//! Commands without blocks.
//!
//! A line is `WORD TARGETS = HEAD: OPERANDS`. TARGETS are the locals that are set, HEAD is a struct, a field `T.f`, a
//! procedure or the kind of a slice's items, and OPERANDS are expressions; each may be missing, with the sign beside it.

use crate::expressions::expressions;
use crate::names::Names;
use anyhow::{Result, bail};
use gv_base::{List, Place};
use gv_lang::{Cmd, ItemKind, Pure};
use std::alloc::Global;

// What stands before the operands, beside the targets.
#[derive(Clone, Copy)]
enum Head {
    Nothing,
    Struct(u32),
    Field(u32, u32),
    Procedure(u32),
    Items(ItemKind),
}

// The parts of a line.
#[derive(Clone, Copy)]
struct Parts<'a> {
    word: &'a str,
    targets: &'a str,
    head: &'a str,
    operands: &'a str,
}

// The head and the operands.
fn cut_head(text: &str) -> (&str, &str) {
    match text.strip_suffix(":") {
        Some(head) => (head, ""),
        None => match text.split_once(": ") {
            Some((head, operands)) => (head, operands),
            None => ("", text),
        },
    }
}

fn parts_of(line: &str) -> Parts<'_> {
    let (word, rest) = match line.split_once(' ') {
        Some((word, rest)) => (word, rest),
        None => (line, ""),
    };
    let (targets, rest) = match rest.split_once(" = ") {
        Some((targets, rest)) => (targets, rest),
        None => match rest.strip_suffix(" =") {
            Some(targets) => (targets, ""),
            None => ("", rest),
        },
    };
    let (head, operands) = cut_head(rest);
    Parts {
        word,
        targets,
        head,
        operands,
    }
}

fn items_of(said: &str) -> Result<ItemKind> {
    match said {
        "byte" => Ok(ItemKind::Byte),
        "word" => Ok(ItemKind::Word),
        "ref" => Ok(ItemKind::Ref),
        _ => bail!("no kind of items: {said}"),
    }
}

fn head_of(names: Names<'_>, word: &str, said: &str) -> Result<Head> {
    match word {
        "new" => Ok(Head::Struct(names.structure(said)?)),
        "load" | "store" => {
            let (of, field) = names.field(said)?;
            Ok(Head::Field(of, field))
        }
        "call" | "go" => Ok(Head::Procedure(names.procedure(said)?)),
        "make" | "append" => Ok(Head::Items(items_of(said)?)),
        _ if said.is_empty() => Ok(Head::Nothing),
        _ => bail!("a head that the command doesn't have: {said}"),
    }
}

fn targets(alloc: Global, names: Names<'_>, text: &str) -> Result<Vec<u32>> {
    let mut xs = Vec::new(alloc);
    if text.is_empty() {
        return Ok(xs);
    }
    for part in text.split(", ") {
        xs.push(names.local(part)?)?;
    }
    Ok(xs)
}

// Those without operands.
fn of_none(word: &str, xs: &[u32], place: Place) -> Option<Cmd> {
    match xs {
        [] => match word {
            "break" => Some(Cmd::Break { place }),
            "continue" => Some(Cmd::Continue { place }),
            _ => None,
        },
        [x] => match word {
            "newmap" => Some(Cmd::NewMap { x: *x, place }),
            "newmutex" => Some(Cmd::NewMutex { x: *x, place }),
            "size" => Some(Cmd::DiskSize { x: *x, place }),
            _ => None,
        },
        _ => None,
    }
}

// Those with one operand that set a local.
fn sets_of_one(word: &str, head: Head, x: u32, e: Pure, place: Place) -> Option<Cmd> {
    match word {
        "let" => Some(Cmd::Let { x, e, place }),
        "len" => Some(Cmd::Len { x, s: e, place }),
        "read" => Some(Cmd::DiskRead { x, a: e, place }),
        "get64" => Some(Cmd::Get64 { x, s: e, place }),
        "load" => match head {
            Head::Field(of, field) => Some(Cmd::Load {
                x,
                p: e,
                of,
                field,
                place,
            }),
            _ => None,
        },
        "make" => match head {
            Head::Items(item) => Some(Cmd::MakeSlice {
                x,
                item,
                n: e,
                place,
            }),
            _ => None,
        },
        _ => None,
    }
}

fn of_one(word: &str, head: Head, xs: &[u32], e: Pure, place: Place) -> Option<Cmd> {
    match xs {
        [] => match word {
            "lock" => Some(Cmd::Lock { m: e, place }),
            "unlock" => Some(Cmd::Unlock { m: e, place }),
            _ => None,
        },
        [x] => sets_of_one(word, head, *x, e, place),
        _ => None,
    }
}

fn sets_of_two(word: &str, head: Head, x: u32, a: Pure, b: Pure, place: Place) -> Option<Cmd> {
    match word {
        "div" => Some(Cmd::Div { x, a, b, place }),
        "rem" => Some(Cmd::Rem { x, a, b, place }),
        "at" => Some(Cmd::At {
            x,
            s: a,
            i: b,
            place,
        }),
        "append" => match head {
            Head::Items(item) => Some(Cmd::Append {
                x,
                item,
                s: a,
                v: b,
                place,
            }),
            _ => None,
        },
        _ => None,
    }
}

// Those with two operands that set two locals.
fn sets_both(word: &str, x: u32, ok: u32, a: Pure, b: Pure, place: Place) -> Option<Cmd> {
    match word {
        "get" => Some(Cmd::MapGet {
            x,
            ok,
            m: a,
            k: b,
            place,
        }),
        "read2" => Some(Cmd::DiskRead2 {
            x,
            ok,
            d: a,
            a: b,
            place,
        }),
        _ => None,
    }
}

fn sets_nothing(word: &str, head: Head, a: Pure, b: Pure, place: Place) -> Option<Cmd> {
    match word {
        "delete" => Some(Cmd::MapDelete { m: a, k: b, place }),
        "put64" => Some(Cmd::Put64 { s: a, v: b, place }),
        "store" => match head {
            Head::Field(of, field) => Some(Cmd::Store {
                p: a,
                of,
                field,
                e: b,
                place,
            }),
            _ => None,
        },
        _ => None,
    }
}

fn of_two(word: &str, head: Head, xs: &[u32], a: Pure, b: Pure, place: Place) -> Option<Cmd> {
    match xs {
        [] => sets_nothing(word, head, a, b, place),
        [x] => sets_of_two(word, head, *x, a, b, place),
        [x, ok] => sets_both(word, *x, *ok, a, b, place),
        _ => None,
    }
}

fn of_three(word: &str, xs: &[u32], a: Pure, b: Pure, c: Pure, place: Place) -> Option<Cmd> {
    match xs {
        [] => match word {
            "put" => Some(Cmd::Put {
                s: a,
                i: b,
                v: c,
                place,
            }),
            "mapput" => Some(Cmd::MapPut {
                m: a,
                k: b,
                v: c,
                place,
            }),
            "write" => Some(Cmd::DiskWrite {
                d: a,
                a: b,
                s: c,
                place,
            }),
            _ => None,
        },
        [x] => match word {
            "sub" => Some(Cmd::Sub {
                x: *x,
                s: a,
                a: b,
                b: c,
                place,
            }),
            _ => None,
        },
        _ => None,
    }
}

// Those with a fixed number of operands.
fn fixed(word: &str, head: Head, xs: &[u32], operands: Vec<Pure>, place: Place) -> Option<Cmd> {
    let mut es = operands;
    let last = es.pop();
    let middle = es.pop();
    let first = es.pop();
    match (first, middle, last) {
        (None, None, None) => of_none(word, xs, place),
        (None, None, Some(e)) => of_one(word, head, xs, e, place),
        (None, Some(a), Some(b)) => of_two(word, head, xs, a, b, place),
        (Some(a), Some(b), Some(c)) if es.is_empty() => of_three(word, xs, a, b, c, place),
        _ => None,
    }
}

fn built(
    word: &str,
    head: Head,
    targets: Vec<u32>,
    operands: Vec<Pure>,
    place: Place,
) -> Option<Cmd> {
    match (word, head) {
        ("new", Head::Struct(of)) => match targets.as_slice() {
            [x] => Some(Cmd::New {
                x: *x,
                of,
                vs: List::from_vec(operands),
                place,
            }),
            _ => None,
        },
        ("call", Head::Procedure(f)) => Some(Cmd::Call {
            xs: List::from_vec(targets),
            f,
            es: List::from_vec(operands),
            place,
        }),
        ("go", Head::Procedure(f)) if targets.is_empty() => Some(Cmd::Spawn {
            f,
            es: List::from_vec(operands),
            place,
        }),
        ("return", _) if targets.is_empty() => Some(Cmd::Return {
            es: List::from_vec(operands),
            place,
        }),
        _ => fixed(word, head, targets.as_slice(), operands, place),
    }
}

/// The command of a line, with the place of its statement.
pub(crate) fn command(alloc: Global, names: Names<'_>, line: &str, place: Place) -> Result<Cmd> {
    let parts = parts_of(line);
    let head = head_of(names, parts.word, parts.head)?;
    let xs = targets(alloc, names, parts.targets)?;
    let es = expressions(alloc, names, parts.operands)?;
    match built(parts.word, head, xs, es, place) {
        Some(command) => Ok(command),
        None => bail!("no command: {line}"),
    }
}
