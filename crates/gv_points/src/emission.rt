//! The graphs of a program.

ghost use Rattle.std.specs.Prelude.{◌≡◌, ◌+◌, ◌<◌, ◌^◌, ◌++◌, [], ◌∷◌, true, IfOk, OnOk};
ghost use Rattle.gv_lang.specs.Plain.{tree_of, body_of, proc_of, program_of};
ghost use Rattle.gv_lang.specs.Graph.{size, command_size, entry, block_points, command_points, graph_of, graphs_of};
ghost use Rattle.gv_lang.specs.WellShaped.{is_well_shaped};
ghost use Rattle.gv_lockstep.specs.Sites.{point_with};
ghost use Rattle.gv_lockstep.specs.Ways.{Lockstep};
ghost use Rattle.gv_points.specs.Extents.{Holds, block_extents, command_extents};
ghost use Rattle.gv_points.specs.Graphs.{points_of, proc_graph_of, graphs_in};

use crate::copies::{action, both, one, place, targets};
use crate::extents::{ALONE, Extent, measure};
use crate::graph::{Graph, Point, ProcGraph};
use gv_base::{List, NoMemory};
use gv_lang::{Cmd, Outline, Proc, Program};
use std::alloc::Global;

// Where control goes from a block: after its end, at a Break and at a Continue; 0 is nowhere.
#[derive(Clone, Copy, Drop)]
struct Exits {
    after: u32,
    leave: u32,
    again: u32,
}

const NOWHERE: Exits = Exits {
    after: 0,
    leave: 0,
    again: 0,
};

// The first point of a block whose commands are numbered from `at`; of an empty one what follows it.
fn first_point(cs: &[Cmd], at: u32, after: u32) -> u32
    ensures { result ≡ entry (body_of cs.now) at after }
{
    match cs {
        [] => after,
        [_first, _rest @ ..] => at,
    }
}

fn push(out: &mut Vec<Point>, alloc: Global, c: &Cmd, next: List<u32>) -> Result<(), NoMemory>
    ensures { OnOk result (points_of out.new.items ≡ points_of out.old.items ++ point_with (tree_of c.now) next ∷ []) }
{
    out.push(Point {
        action: action(alloc, c)?,
        place: place(c),
        targets: targets(alloc, c)?,
        next,
    })?;
    Ok(())
}

// Appends the points of a block whose commands are numbered from `at`. Each extent stands under its command's number.
#[tactic(auto, using(crate::proofs::Outlines::outlines))]
#[cycle(emit)]
fn emit(
    out: &mut Vec<Point>,
    alloc: Global,
    extents: &[Extent],
    cs: &[Cmd],
    at: u32,
    exits: Exits,
) -> Result<(), NoMemory>
    requires extents { Holds extents.now at (block_extents (body_of cs.now)) }
    requires room { at + size (body_of cs.now) < 2 ^ 32 }
    ensures { OnOk result (points_of out.new.items ≡ points_of out.old.items ++ block_points (body_of cs.now) at exits.after exits.leave exits.again) }
{
    let mut here = at;
    let mut rest = cs;
    while let [first, tail @ ..] = rest {
        let next = here + extents[here as usize].whole;
        let after = first_point(tail, next, exits.after);
        emit_command(out, alloc, extents, first, here, Exits { after, ..exits })?;
        here = next;
        rest = tail;
    }
    Ok(())
}

#[tactic(auto, using(crate::proofs::Outlines::outlines))]
#[cycle(emit)]
fn emit_command(
    out: &mut Vec<Point>,
    alloc: Global,
    extents: &[Extent],
    c: &Cmd,
    at: u32,
    exits: Exits,
) -> Result<(), NoMemory>
    requires extents { Holds extents.now at (command_extents (tree_of c.now)) }
    requires room { at + command_size (tree_of c.now) < 2 ^ 32 }
    ensures { OnOk result (points_of out.new.items ≡ points_of out.old.items ++ command_points (tree_of c.now) at exits.after exits.leave exits.again) }
{
    match c.outline() {
        Outline::Plain => push(out, alloc, c, one(alloc, exits.after)?)?,
        Outline::Break => push(out, alloc, c, one(alloc, exits.leave)?)?,
        Outline::Continue => push(out, alloc, c, one(alloc, exits.again)?)?,
        Outline::Return => push(out, alloc, c, List::new(alloc))?,
        Outline::If(then, other) => {
            let inner = at + 1;
            let outer = inner + extents[at as usize].first;
            let yes = first_point(then, inner, exits.after);
            let no = first_point(other, outer, exits.after);
            push(out, alloc, c, both(alloc, yes, no)?)?;
            emit(out, alloc, extents, then, inner, exits)?;
            emit(out, alloc, extents, other, outer, exits)?;
        }
        Outline::Loop(body) => {
            let inner = at + 1;
            let again = first_point(body, inner, 0);
            push(out, alloc, c, one(alloc, again)?)?;
            let within = Exits {
                after: 0,
                leave: exits.after,
                again,
            };
            emit(out, alloc, extents, body, inner, within)?;
        }
    }
    Ok(())
}

fn proc_graph(alloc: Global, q: &Proc) -> Result<ProcGraph, NoMemory>
    requires { size (body_of q.now.body) + 1 < 2 ^ 32 }
    ensures { IfOk result (λ made. proc_graph_of made ≡ graph_of (proc_of q.now)) }
{
    let body = q.body.as_slice();
    let mut extents = Vec::new(alloc);
    extents.push(ALONE)?;
    measure(&mut extents, body)?;
    let mut points = Vec::new(alloc);
    emit(&mut points, alloc, extents.as_slice(), body, 1, NOWHERE)?;
    Ok(ProcGraph {
        entry: first_point(body, 1, 0),
        points: List::from_vec(points),
    })
}

/// The graph of a program of a good shape: of each procedure its points in the order of the text, numbered from 1. It takes time and
/// memory linear in the program, and nests no deeper than the program's blocks and expressions. Each frame of the program goes from
/// point to point of the graph, and a point's successors are exactly what the table of steps leads to from its command. The one error is
/// that memory is wanting. This project's own.
pub fn points(alloc: Global, p: &Program) -> Result<Graph, NoMemory>
    requires { is_well_shaped (program_of p.now) ≡ true }
    ensures graph { IfOk result (λ made. graphs_in made ≡ graphs_of (program_of p.now)) }
    ensures lockstep { Lockstep (program_of p.now) }
{
    let mut procs = Vec::new(alloc);
    let mut rest = p.procs.as_slice();
    while let [first, tail @ ..] = rest {
        procs.push(proc_graph(alloc, first)?)?;
        rest = tail;
    }
    Ok(Graph {
        procs: List::from_vec(procs),
    })
}
