//! Tables of the names of a package, which answer a walk over it.
//!
//! What a name stands for is defined in gv_gotypes. A look-up takes no more steps where there are more names.
#![tactic(auto)]

mod firsts;
mod innermost;
mod locals;
mod name_table;
mod rows;
mod span;
mod struct_table;
mod trail;

pub use locals::Locals;
pub use name_table::NameTable;
pub use rows::{FieldRow, MemberRow, MethodRow, NameRow};
pub use span::{Span, bytes_between, span_of};
pub use struct_table::StructTable;
pub use trail::{DeclaredStep, Local, Step};
