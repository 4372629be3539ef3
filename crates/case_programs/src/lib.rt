//! Programs of cases: trees of commands in a text form of their own, one command a line.
//!
//! `programs` tells the lines that begin a program and its procedures, `blocks` those of bodies, `commands` and `expressions` the others.
#![tactic(auto)]

mod blocks;
mod commands;
mod expressions;
mod names;
mod places;
mod programs;

pub use programs::Reading;
