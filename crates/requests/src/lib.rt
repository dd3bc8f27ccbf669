// What a request line asks for: its arguments, and the buffers that it lends.
#![tactic(auto)]

mod arguments; // arguments.rt: its operation and arguments among the line's numbers
mod buffers; // buffers.rt: the pattern in the lent buffers

pub use arguments::{Fault, Request};
pub use buffers::{fill, left_well, unchanged};
