//! The trail of scopes: what was declared and opened, so that it can be undone.

use gv_gotypes::Entity;
use gv_operands::GoType;

/// A declaration within a function: what the name stands for, and how many blocks and how many literals behind `go` were opened
/// before it that aren't closed.
#[derive(Clone, Copy, Debug)]
pub struct Local {
    pub entity: Entity,
    pub blocks: usize,
    pub literals: usize,
}

/// A declaration on the trail, with what its name stood for before it.
#[derive(Drop)]
pub struct DeclaredStep {
    pub name: Vec<u8>,
    pub entity: Entity,
    pub before: Option<Local>,
}

/// A step of the trail. What a literal or a function begins has the types of the results that were given around it.
#[derive(Drop)]
pub enum Step {
    Declared(DeclaredStep),
    Opened,
    Literal(Vec<Option<GoType>>),
    Function(Vec<Option<GoType>>),
}
