//! `var`.

ghost use Rattle.std.specs.Prelude.{◌≡◌, Option as Maybe, Some, None, IfOk, option_map};
ghost use Rattle.gv_base.specs.declared.answers.Code.TheVariants as code;
ghost use Rattle.gv_gosyntax.specs.declared.generated.gosyntax_acts.Part.TheVariants.{GoType as PGoType, Right as PRight};
ghost use Rattle.gv_gosyntax.specs.declared.tree.GoType.{GoType as TypeTree};
ghost use Rattle.gv_gosyntax.specs.declared.tree.Right.{Right as AnyRight};
ghost use Rattle.gv_gosyntax.specs.Nodes as tree;
ghost use Rattle.gv_gonodes.specs.GoType.{IsSomeGoType};
ghost use Rattle.gv_gonodes.specs.Right.{IsSomeRight};
ghost use Rattle.gv_gotypes.specs.Kinds as kinds;
ghost use Rattle.gv_gotypes.specs.Statements as spec;
ghost use Rattle.gv_gotypes.specs.Trees.{Var as VarTree, right_of};
ghost use Rattle.gv_gotyped.specs.First.{first_of};

use gv_base::{Code, NoMemory};
use gv_gocalls::want_of;
use gv_goscopes::Scopes;
use gv_gosimple::right_fault;
use gv_gosyntax::{Lexeme, Node};
use gv_gotyped::{Fault, earliest};
use gv_gowalk::{Names, type_at, written_at};
use gv_operands::GoType;
use std::alloc::Global;

/// The fault of a name that is declared in the scope that was opened last already.
pub fn name_fault<N: Scopes>(names: &N, name: Lexeme) -> Option<Fault>
    ensures { result ≡ first_of (spec.name_findings (N.env names.now) name) }
{
    if names.is_blank(name) {
        return None;
    }
    if names.is_here(name) {
        Some(Fault {
            start: name.start,
            code: Code::Twice,
        })
    } else {
        None
    }
}

/// The type that a variable is declared with, whose node is at a place.
pub(crate) fn kind_at<N: Names>(names: &N, nodes: &[Node], at: usize) -> Option<GoType>
    requires formed { tree.IsFormed nodes.now }
    requires some { IsSomeGoType nodes.now at }
    ensures { (t : TypeTree) → tree.IsPartAt nodes.now at (PGoType t) → result ≡ kinds.kind_of (N.env names.now) t }
{
    written_at(names, type_at(nodes, at)).kind
}

/// The fault that is told of `var NAME TYPE`.
pub(crate) fn var_fault<N: Scopes>(
    names: &N,
    nodes: &[Node],
    word: Lexeme,
    name: Lexeme,
    kind: usize,
) -> Option<Fault>
    requires formed { tree.IsFormed nodes.now }
    requires kind { IsSomeGoType nodes.now kind }
    ensures { (t : TypeTree) → tree.IsPartAt nodes.now kind (PGoType t)
        → result ≡ first_of (spec.stmt_findings (N.env names.now) (VarTree word name t None)) }
{
    let written = written_at(names, type_at(nodes, kind));
    let twice = name_fault(names, name);
    earliest(written.first, twice)
}

/// The fault that is told of `var NAME TYPE = RIGHT`.
pub(crate) fn value_fault<N: Scopes>(
    alloc: Global,
    names: &N,
    nodes: &[Node],
    word: Lexeme,
    name: Lexeme,
    kind: usize,
    value: usize,
) -> Result<Option<Fault>, NoMemory>
    requires formed { tree.IsFormed nodes.now }
    requires kind { IsSomeGoType nodes.now kind }
    requires value { IsSomeRight nodes.now value }
    ensures { (t : TypeTree) (r : AnyRight) → tree.IsPartAt nodes.now kind (PGoType t) → tree.IsPartAt nodes.now value (PRight r)
        → IfOk result (λ first. first ≡ first_of (spec.stmt_findings (N.env names.now) (VarTree word name t (Some (right_of r))))) }
{
    let written = written_at(names, type_at(nodes, kind));
    let own = right_fault(
        alloc,
        names,
        nodes,
        value,
        &[want_of(written.kind)],
        word.start,
    )?;
    let twice = name_fault(names, name);
    let more = earliest(own, twice);
    Ok(earliest(written.first, more))
}
