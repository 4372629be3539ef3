//! Specifications from their parts.

ghost use Rattle.std.specs.Prelude.{◌≡◌, false, IfOk, IfErr};
ghost use Rattle.gv_atomic.specs.declared.spec.SpecFault.TheVariants as fault;
ghost use Rattle.gv_atomic.specs.Typed.{is_typed};

use crate::spec::{Assign, Field, Op, Pick, Spec, SpecFault};
use crate::typing;
use gv_base::List;
use gv_terms::TermStore;
use std::alloc::Global;

/// The specification of these parts, where they are typed. Each operation looks at each node of the
/// store at most once, so where operations share no terms this is linear in the parts and the store.
pub fn make_spec(
    alloc: Global,
    disks: u32,
    blocks: u32,
    fields: List<Field>,
    ops: List<Op>,
    crash_picks: List<Pick>,
    crash: List<Assign>,
    store: TermStore,
) -> Result<Spec, SpecFault>
    ensures fields { IfOk result (λ s. s.fields ≡ fields) }
    ensures ops { IfOk result (λ s. s.ops ≡ ops) }
    ensures crash_picks { IfOk result (λ s. s.crash_picks ≡ crash_picks) }
    ensures crash { IfOk result (λ s. s.crash ≡ crash) }
    ensures store { IfOk result (λ s. s.store ≡ store) }
    ensures disks { IfOk result (λ s. s.disks ≡ disks) }
    ensures blocks { IfOk result (λ s. s.blocks ≡ blocks) }
    ensures cause { IfErr result (λ e. e ≡ fault.Untyped → is_typed disks blocks fields ops crash_picks crash store ≡ false) }
{
    let typed = typing::is_typed(
        alloc,
        disks,
        blocks,
        fields.as_slice(),
        ops.as_slice(),
        crash_picks.as_slice(),
        crash.as_slice(),
        &store,
    )?;
    if !typed {
        return Err(SpecFault::Untyped);
    }
    Ok(Spec {
        disks,
        blocks,
        fields,
        ops,
        crash_picks,
        crash,
        store,
    })
}
