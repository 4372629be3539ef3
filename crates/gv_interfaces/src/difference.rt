//! Where the operations of a package and of a specification differ.

ghost use Rattle.std.specs.Prelude.{◌≡◌, ◌-◌, ◌^◌, ◌<◌, length, Some, None, IfOk, IfNone, IfSome};
ghost use Rattle.gv_gotree.specs.SmallPackage.{IsSmallPackage};
ghost use Rattle.gv_specs.specs.Reading.{Spells};
ghost use Rattle.gv_interfaces.specs.Interfaces.{SameOperations, named};
ghost use Rattle.gv_interfaces.specs.Places.{IsFirstDifference, method_place};

use crate::differing::first_differing;
use crate::places::{place_in_package, place_in_spec};
use gv_atomic::Spec;
use gv_base::{Name, NoMemory, Place, Small};
use std::alloc::Global;

/// Where a name stands: in the text of a specification, or in that of a package. This project's own.
#[derive(Clone, Copy, Debug, PartialEq, Eq)]
pub enum Difference {
    InSpec(Place),
    InPackage(Place),
}

// The place of an operation's name in a package that has one.
fn package_place(text: &[u8], package: &Small, name: &Name) -> Place
    requires short { length text.now < 2 ^ 32 - 1 }
    requires spelled { IsSmallPackage text.now «package».now }
    requires there { named (λ op. op.name) name.now «package».now.ops ≡ None → ⊥ }
    ensures { method_place text.now name.now ≡ Some result }
{
    match place_in_package(text, name) {
        Some(place) => place,
        None => unreachable!(),
    }
}

/// The place of the first name, in the order of bytes, under which a package of the small form and a specification have other operations:
/// one of them has none with the name, or they take or reply values of other sorts. It stands in the specification's text, where that has an
/// operation with the name, else in the package's. None where they have the same operations. Each text has fewer than 2^32 - 1 bytes.
/// It takes time and room linear in the texts. This project's own.
pub fn first_difference(
    alloc: Global,
    package: &Small,
    text: &[u8],
    spec: &Spec,
    spec_text: &[u8],
) -> Result<Option<Difference>, NoMemory>
    requires short { length text.now < 2 ^ 32 - 1 }
    requires spec_short { length spec_text.now < 2 ^ 32 - 1 }
    requires package { IsSmallPackage text.now «package».now }
    requires spec { Spells spec_text.now spec.now }
    ensures none { IfOk result (λ o. IfNone o (SameOperations «package».now spec.now)) }
    ensures some { IfOk result (λ o. IfSome o (IsFirstDifference «package».now text.now spec.now spec_text.now)) }
{
    let Some(name) = first_differing(alloc, package, spec)? else {
        return Ok(None);
    };
    match place_in_spec(alloc, spec_text, spec, &name)? {
        Some(place) => Ok(Some(Difference::InSpec(place))),
        None => Ok(Some(Difference::InPackage(package_place(text, package, &name)))),
    }
}
