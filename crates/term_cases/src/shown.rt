//! Answers as a table writes them.

use anyhow::{Result, bail};
use gv_base::{Name, Refusal};
use gv_terms::Value;
use gv_trees::FiniteMap;
use std::alloc::Global;
use std::fmt;

// A value, which is printed as a table writes it.
#[derive(Drop)]
struct Shown<'a>(&'a Value);

// A byte string in quotes.
#[derive(Drop)]
struct Quoted<'a>(&'a Name);

impl<'a> fmt::Display for Quoted<'a> {
    fn fmt<W: fmt::Write>(&self, f: &mut fmt::Formatter<W>) -> fmt::Result {
        write!(f, "\"{}\"", self.0.as_slice().escape_ascii())
    }
}

// A map to words, as a list of pairs.
fn show_words<W: fmt::Write>(f: &mut fmt::Formatter<W>, map: &FiniteMap<u64>) -> fmt::Result {
    write!(f, "mapww [")?;
    for place in 0..map.len() {
        if let Some((key, item)) = map.entry(place) {
            let before = if place == 0 { "" } else { ", " };
            write!(f, "{before}({key}, {item})")?;
        }
    }
    write!(f, "]")
}

// A map to byte strings, each behind its key.
fn show_blocks<W: fmt::Write>(f: &mut fmt::Formatter<W>, map: &FiniteMap<Name>) -> fmt::Result {
    write!(f, "mapwb")?;
    for place in 0..map.len() {
        if let Some((key, item)) = map.entry(place) {
            write!(f, " {key}:{}", Quoted(item))?;
        }
    }
    Ok(())
}

impl<'a> fmt::Display for Shown<'a> {
    fn fmt<W: fmt::Write>(&self, f: &mut fmt::Formatter<W>) -> fmt::Result {
        match self.0 {
            Value::Word(n) => write!(f, "{n}"),
            Value::Bool(b) => write!(f, "{b}"),
            Value::Bytes(x) => write!(f, "{}", Quoted(x)),
            Value::Words(x) => write!(f, "words {:?}", x.as_slice()),
            Value::Refs(x) => write!(f, "refs {:?}", x.as_slice()),
            Value::Blocks(x) => {
                write!(f, "blocks")?;
                for block in x.as_slice() {
                    write!(f, " {}", Quoted(block))?;
                }
                Ok(())
            }
            Value::MapWW(m) => show_words(f, m),
            Value::MapWB(m) => show_blocks(f, m),
            Value::Ref(r) => write!(f, "ref {r}"),
            Value::SliceS(s) => {
                let (object, offset, length, capacity) = (s.object, s.offset, s.length, s.capacity);
                write!(f, "slice {object} {offset} {length} {capacity}")
            }
            Value::Call(c) => write!(f, "call {c}"),
            Value::Name(n) => write!(f, "name {}", Quoted(n)),
            Value::Unit => write!(f, "unit"),
        }
    }
}

/// The value of a term, or the place and the code of its refusal.
pub(crate) fn answer_text(alloc: Global, answer: &Result<Value, Refusal>) -> Result<String> {
    match answer {
        Ok(value) => Ok(format!(in alloc; "{}", Shown(value))?),
        Err(Refusal::At { place, code }) => {
            let name = code.name();
            Ok(format!(in alloc; "{}:{} {name}", place.line, place.column)?)
        }
        Err(Refusal::NoMemory) => bail!("out of memory"),
    }
}

/// The sort of an answer's value, and nothing where it has none.
pub(crate) fn sort_text(alloc: Global, answer: &Result<Value, Refusal>) -> Result<String> {
    match answer.as_ref().ok().and_then(|value| value.sort()) {
        Some(sort) => Ok(format!(in alloc; "{sort:?}")?),
        None => Ok(String::new(alloc)),
    }
}
