//! What tools/axioms.py makes.

pub(crate) mod table;
