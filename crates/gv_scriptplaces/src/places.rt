//! Places of the numbered commands.

ghost use Rattle.std.specs.Prelude.{◌≡◌, ◌-◌, ◌^◌, ◌<◌, ◌++◌, length, map, IfOk, OnOk};
ghost use Rattle.gv_base.specs.Places.{place_at};
ghost use Rattle.gv_scriptsyntax.specs.declared.tree.Script.{Script as AnyScript};
ghost use Rattle.gv_scriptsyntax.specs.Nodes as tree;
ghost use Rattle.gv_scriptnodes.specs.Places.{IsSomeScript};
ghost use Rattle.gv_scriptnumbers.specs.Numbers as numbers;

use crate::numbers::numbered;
use gv_base::{Lines, NoMemory, Place};
use gv_scriptsyntax::Node;
use std::alloc::Global;

// The place of a byte. What is behind the end stands at the end.
fn place_in(index: &Lines, text: &[u8], at: u32) -> Place
    requires of { index.now ≡ text.now }
    requires short { length text.now < 2 ^ 32 - 1 }
    ensures { result ≡ place_at text.now at }
{
    index.place(at.min(text.len() as u32))
}

// Adds the places of bytes.
fn add_places(
    index: &Lines,
    text: &[u8],
    starts: &[u32],
    places: &mut Vec<Place>,
) -> Result<(), NoMemory>
    requires of { index.now ≡ text.now }
    requires short { length text.now < 2 ^ 32 - 1 }
    ensures { OnOk result (places.new.items ≡ places.old.items ++ map (place_at text.now) starts.now) }
{
    let mut left = starts;
    while let [start, rest @ ..] = left {
        places.push(place_in(index, text, *start))?;
        left = rest;
    }
    Ok(())
}

/// The places of a script's numbered commands in the order of their numbers from 1, each that of the command's word or closing brace,
/// and last the place behind the text, of fewer than 2^32 - 1 bytes, whose tree the nodes are. It takes room linear in the nodes and
/// lines, and time that grows besides with the logarithm of the lines. This project's own.
pub fn places_of(alloc: Global, text: &[u8], nodes: &[Node]) -> Result<Vec<Place>, NoMemory>
    requires short { length text.now < 2 ^ 32 - 1 }
    requires tree { IsSomeScript text.now nodes.now }
    ensures { IfOk result (λ places. (script : AnyScript) → tree.IsTreeOf text.now nodes.now script → places.items ≡ numbers.places_of text.now script) }
{
    let index = Lines::new(alloc, text)?;
    let starts = numbered(alloc, text, nodes)?;
    let mut places = Vec::with_capacity(alloc, starts.len())?;
    add_places(&index, text, &starts, &mut places)?;
    places.push(index.place(text.len() as u32))?;
    Ok(places)
}
