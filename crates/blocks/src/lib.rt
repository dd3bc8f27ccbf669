// How blocks are joined: dense, along the diagonal, by rows or not at all, and to which extents.
#![tactic(auto)]

mod reading; // reading.rt: what the record of a block says
mod asking; // asking.rt: what is asked of every block
mod measuring; // measuring.rt: what is measured of all blocks
mod running; // running.rt: starts that run along a line
mod deciding; // deciding.rt: the way in which blocks are joined

pub use deciding::{Join, Way, join_of};
