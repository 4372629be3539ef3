//! What is known of what is called, and of calls.

use gv_goscopes::Signature;
use gv_gotyped::Fault;
use gv_operands::GoType;

/// What is called: where it begins, what it takes and gives, if that is known, and the fault in it that is told.
#[derive(Clone, Copy, Debug)]
pub struct Callee<'a> {
    pub start: u32,
    pub signature: Option<Signature<'a>>,
    pub first: Option<Fault>,
}

/// The types of the results of a call, in order: not known; none; one; or those of what is called.
#[derive(Clone, Copy, Debug)]
pub enum Results<'a> {
    Unknown,
    Nothing,
    One(Option<GoType>),
    Of(&'a [Option<GoType>]),
}

/// A call that was walked over: where it begins, what it gives, and the fault in it that is told.
#[derive(Clone, Copy, Debug)]
pub struct Answer<'a> {
    pub start: u32,
    pub results: Results<'a>,
    pub first: Option<Fault>,
}
