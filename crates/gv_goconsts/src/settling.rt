//! What constants are.

ghost use Rattle.std.specs.Prelude.{◌≡◌, ◌<◌, ℕ, List as Seq, [], Option as Maybe, None, length, slice_get, replicate, slice_index_or, slice_set, IfOk, OnOk, OnErr};
ghost use Rattle.gv_cycles.specs.Order.{IsOrder};
ghost use Rattle.gv_gosyntax.specs.Nodes as tree;
ghost use Rattle.gv_operands.specs.declared.types.Class.{Class as AnyClass};
ghost use Rattle.gv_gotypes.specs.Constants.{ConstantTree, rounds};
ghost use Rattle.gv_gotypes.specs.Declarations.{outside};
ghost use Rattle.gv_gotypes.specs.Scopes.{Package, Source};
ghost use Rattle.gv_gonamed.specs.Laws.{with_these};
ghost use Rattle.gv_goseen.specs.Seen.{env_of, package_of, source_of};
ghost use Rattle.gv_goconsts.specs.Constants.{made_of, names_of, AreConstantsAt, AreSomeConstants};

use crate::constants::{ConstantNode, settled};
use crate::rows::rows_of;
use gv_base::NoMemory;
use gv_cycles::finishing_order;
use gv_goseen::Seen;
use gv_gosyntax::Node;
use gv_gowalk::operand_at;
use gv_operands::Class;
use std::alloc::Global;

// Makes one constant what it is where the others are what they are.
fn settle(nodes: &[Node], constants: &[ConstantNode], seen: &mut Seen, number: usize)
    requires formed { tree.IsFormed nodes.now }
    requires some { AreSomeConstants nodes.now constants.now }
    requires within { number < length constants.now }
    requires sized { length seen.old.declared.constants.items ≡ length constants.now }
    ensures settled { (s : Source) (p : Package) (ks : Seq (Maybe AnyClass)) (cs : Seq ConstantTree)
        → env_of seen.old ≡ with_these s p ks → AreConstantsAt nodes.now constants.now cs
        → env_of seen.new ≡ with_these s p (slice_set ks number (made_of (with_these s p ks) (slice_get cs number))) }
    ensures sized { length seen.new.declared.constants.items ≡ length constants.now }
    ensures locals { seen.new.locals ≡ seen.old.locals }
{
    let constant = constants[number];
    let known = operand_at(&*seen, nodes, constant.value);
    seen.declared.constants[number] = settled(constant.is_word, known.part.class);
}

// Makes all constants what they are, in an order in which each comes behind what it names, where none is anything yet.
fn settle_in(nodes: &[Node], constants: &[ConstantNode], seen: &mut Seen, order: &[usize])
    requires formed { tree.IsFormed nodes.now }
    requires some { AreSomeConstants nodes.now constants.now }
    requires sized { length seen.old.declared.constants.items ≡ length constants.now }
    requires ranged { (i d : ℕ) → i < length order.now → slice_index_or order.now i d < length constants.now }
    ensures settled { (s : Source) (p : Package) (cs : Seq ConstantTree) → AreConstantsAt nodes.now constants.now cs
        → env_of seen.old ≡ with_these s p (replicate (length constants.now) None) → IsOrder (names_of (with_these s p []) cs) order.now
        → env_of seen.new ≡ with_these s p (rounds (length cs) s p cs) }
    ensures locals { seen.new.locals ≡ seen.old.locals }
{
    let mut at = 0;
    while at < order.len() {
        settle(nodes, constants, seen, order[at]);
        at += 1;
    }
}

// So many constants that are nothing.
fn nothings(alloc: Global, count: usize) -> Result<Vec<Option<Class>>, NoMemory>
    ensures { IfOk result (λ nothing. nothing.items ≡ replicate count None) }
{
    let mut nothing = Vec::new(alloc);
    let mut at = 0;
    while at < count {
        nothing.push(None)?;
        at += 1;
    }
    Ok(nothing)
}

/// Makes the constants of a package what they are by their declarations. What else is seen are the names, structs and procedures of
/// the package, outside of functions. It takes as many steps as the expressions have operands.
pub fn settle_constants(
    alloc: Global,
    nodes: &[Node],
    constants: &[ConstantNode],
    seen: &mut Seen,
) -> Result<(), NoMemory>
    requires formed { tree.IsFormed nodes.now }
    requires some { AreSomeConstants nodes.now constants.now }
    requires outside { env_of seen.old ≡ outside (source_of seen.old) (package_of seen.old.declared) }
    ensures settled { OnOk result ((cs : Seq ConstantTree) → AreConstantsAt nodes.now constants.now cs
        → env_of seen.new ≡ with_these (source_of seen.old) (package_of seen.old.declared)
        (rounds (length cs) (source_of seen.old) (package_of seen.old.declared) cs)) }
    ensures locals { OnOk result (seen.new.locals ≡ seen.old.locals) }
    ensures kept { OnErr result (seen.new ≡ seen.old) }
{
    let rows = rows_of(alloc, &*seen, nodes, constants)?;
    let order = finishing_order(alloc, &rows)?;
    let nothing = nothings(alloc, constants.len())?;
    seen.declared.constants = nothing;
    settle_in(nodes, constants, seen, &order);
    Ok(())
}
