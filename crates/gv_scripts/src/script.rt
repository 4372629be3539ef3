//! Scripts.

use gv_base::Place;
use gv_scriptnames::Outline;
use gv_scriptsyntax::Node;

/// A script as it was read: the nodes of its tree, its outline, and the places of its commands in the order of their numbers from 1,
/// last the place behind the text. This project's own.
#[derive(Drop)]
pub struct Script {
    pub nodes: Vec<Node>,
    pub outline: Outline,
    pub places: Vec<Place>,
}
