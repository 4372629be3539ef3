//! Terms put in for variables: in terms and in assertions.
#![tactic(auto)]

mod laws;

pub use laws::{
    agreement, alike_assertions, assertion_agreement, closed_terms, put_in_assertions, put_in_terms,
};
