//! The fields of a node.

ghost use Rattle.std.specs.Prelude.{◌≡◌, IfOk};

use gv_base::NoMemory;
use gv_spec::State;
use std::alloc::Global;
use std::marker::Model;
use std::rc::Rc;

/// The fields of a node, which contracts see as their values in order. They never change, and the nodes between
/// which no act and no boot comes hold them together. This project's own.
#[derive(Drop)]
pub struct Fields {
    state: Rc<State>,
}

impl Model for Fields {
    ghost use Rattle.gv_atomic.specs.declared.spec.State.{State as Values};

    ghost Value = { Values };

    ghost view = { λ f. f.state.value };
}

impl Fields {
    /// Fields of these values.
    pub fn new(alloc: Global, state: State) -> Result<Fields, NoMemory>
        ensures { IfOk result (λ f. f ≡ state) }
    {
        let state = Rc::new(alloc, state)?;
        Ok(Fields { state })
    }

    /// The values.
    pub fn state(&self) -> &State
        ensures { result.now ≡ self.now }
    {
        &self.state
    }

    /// The same fields, held by one node more.
    pub fn share(&self) -> Result<Fields, NoMemory>
        ensures { IfOk result (λ f. f ≡ self.now) }
    {
        let state = self.state.clone()?;
        Ok(Fields { state })
    }
}
