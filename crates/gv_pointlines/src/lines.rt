//! Points as lines.

ghost use Rattle.std.specs.Prelude.{◌≡◌, ◌++◌, true, OnOk, IfOk};
ghost use Rattle.gv_lang.specs.Graph.{graph_of, graphs_of};
ghost use Rattle.gv_lang.specs.Plain.{proc_of, program_of, tree_of};
ghost use Rattle.gv_points.specs.Graphs.{point_of, points_of, proc_graph_of, graphs_in};
ghost use Rattle.gv_pointlines.specs.PointLines as lines;

use crate::words::word;
use gv_base::{List, Name, NoMemory, Place};
use gv_lang::{Cmd, Local, Proc, Program};
use gv_points::{Graph, Point, ProcGraph};
use std::alloc::Global;

// Appends a local's name with a space before it; the space alone where no local has the number.
fn push_target(out: &mut Vec<u8>, locals: &[Local], x: u32) -> Result<(), NoMemory>
    ensures { OnOk result (out.new.items ≡ out.old.items ++ lines.target_text locals.now x) }
{
    out.push(b' ')?;
    match locals.get(x as usize) {
        Some(local) => {
            out.extend_from_slice(local.name.as_slice())?;
            Ok(())
        }
        None => Ok(()),
    }
}

fn push_targets(out: &mut Vec<u8>, locals: &[Local], xs: &[u32]) -> Result<(), NoMemory>
    ensures { OnOk result (out.new.items ≡ out.old.items ++ lines.targets_text locals.now xs.now) }
{
    let mut rest = xs;
    while let [first, tail @ ..] = rest {
        push_target(out, locals, *first)?;
        rest = tail;
    }
    Ok(())
}

fn push_place(alloc: Global, out: &mut Vec<u8>, place: Place) -> Result<(), NoMemory>
    ensures { OnOk result (out.new.items ≡ out.old.items ++ lines.place_text place) }
{
    let text = format!(in alloc; " {}:{}", place.line, place.column)?;
    out.extend_from_slice(text.as_bytes())?;
    Ok(())
}

fn push_number(alloc: Global, out: &mut Vec<u8>, k: u32) -> Result<(), NoMemory>
    ensures { OnOk result (out.new.items ≡ out.old.items ++ lines.number_text k) }
{
    let text = format!(in alloc; " {}", k)?;
    out.extend_from_slice(text.as_bytes())?;
    Ok(())
}

fn push_numbers(alloc: Global, out: &mut Vec<u8>, ks: &[u32]) -> Result<(), NoMemory>
    ensures { OnOk result (out.new.items ≡ out.old.items ++ lines.numbers_text ks.now) }
{
    let mut rest = ks;
    while let [first, tail @ ..] = rest {
        push_number(alloc, out, *first)?;
        rest = tail;
    }
    Ok(())
}

fn push_arrow(alloc: Global, out: &mut Vec<u8>, ks: &[u32]) -> Result<(), NoMemory>
    ensures { OnOk result (out.new.items ≡ out.old.items ++ lines.arrow_text ks.now) }
{
    if ks.is_empty() {
        return Ok(());
    }
    out.extend_from_slice(b" ->")?;
    push_numbers(alloc, out, ks)
}

// A number and a command's word.
fn start(alloc: Global, k: usize, c: &Cmd) -> Result<Vec<u8>, NoMemory>
    ensures { IfOk result (λ line. line.items ≡ lines.start_text k (tree_of c.now)) }
{
    let word = word(c);
    let text = format!(in alloc; "{} {}", k, word)?;
    Ok(Vec::from_slice(alloc, text.as_bytes())?)
}

fn point_line(alloc: Global, locals: &[Local], k: usize, p: &Point) -> Result<Name, NoMemory>
    ensures { IfOk result (λ line. line ≡ lines.point_line locals.now k (point_of p.now)) }
{
    let mut line = start(alloc, k, &p.action)?;
    push_targets(&mut line, locals, p.targets.as_slice())?;
    push_place(alloc, &mut line, p.place)?;
    push_arrow(alloc, &mut line, p.next.as_slice())?;
    Name::from_vec(alloc, line)
}

// Appends the lines of points that are numbered from 1.
fn push_points(
    alloc: Global,
    out: &mut Vec<Name>,
    locals: &[Local],
    points: &[Point],
) -> Result<(), NoMemory>
    ensures { OnOk result (out.new.items ≡ out.old.items ++ lines.lines_from locals.now 1 (points_of points.now)) }
{
    let mut k = 1;
    let mut rest = points;
    while let [first, tail @ ..] = rest {
        out.push(point_line(alloc, locals, k, first)?)?;
        k += 1;
        rest = tail;
    }
    Ok(())
}

fn proc_line(alloc: Global, name: &Name) -> Result<Name, NoMemory>
    ensures { IfOk result (λ line. line ≡ lines.proc_line name.now) }
{
    let mut line = Vec::from_slice(alloc, b"proc ")?;
    line.extend_from_slice(name.as_slice())?;
    Name::from_vec(alloc, line)
}

fn push_proc(
    alloc: Global,
    out: &mut Vec<Name>,
    q: &Proc,
    graph: &ProcGraph,
) -> Result<(), NoMemory>
    requires { proc_graph_of graph.now ≡ graph_of (proc_of q.now) }
    ensures { OnOk result (out.new.items ≡ out.old.items ++ lines.proc_lines (proc_of q.now)) }
{
    out.push(proc_line(alloc, &q.name)?)?;
    push_points(alloc, out, q.locals.as_slice(), graph.points.as_slice())
}

/// The lines of a program's points, each without its newline: for each procedure, in the program's order, `proc NAME`, and then a line
/// for each of its points, `K WORD TARGETS LINE:COL -> S S`. K is the point's number from 1, WORD its command's word, TARGETS the names
/// of the locals that it sets and S its successors. Where there is no target or no successor, that part is left out, the arrow with it.
/// The one error is that memory is wanting. This project's own.
pub fn point_lines(alloc: Global, program: &Program, graph: &Graph) -> Result<List<Name>, NoMemory>
    requires { graphs_in graph.now ≡ graphs_of (program_of program.now) }
    ensures { IfOk result (λ made. made ≡ lines.point_lines (program_of program.now)) }
{
    let mut out = Vec::new(alloc);
    let mut procs = program.procs.as_slice();
    let mut graphs = graph.procs.as_slice();
    while let [q, more @ ..] = procs {
        let [first, others @ ..] = graphs else {
            break;
        };
        push_proc(alloc, &mut out, q, first)?;
        procs = more;
        graphs = others;
    }
    Ok(List::from_vec(out))
}
