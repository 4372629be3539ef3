//! The names that are seen where a walk over a package stands: those of the package, and those of the scopes around.
//!
//! What a name stands for is defined in gv_gotypes. Each look-up takes no more steps where there are more names.
#![tactic(auto)]

mod again;
mod answers;
mod called;
mod declared;
mod imports;
mod keys;
mod lookups;
mod members;
mod naming;
mod numbers;
mod paths;
mod scopes;
mod seen;

pub use declared::{Declared, Procedure};
pub use imports::declare_import;
pub use lookups::is_blank;
pub use naming::{declare_field, declare_method, declare_name};
pub use numbers::number_of;
pub use paths::{element_of, element_span, element_start, imported, unquoted};
pub use seen::Seen;
