// The public functions on shapes and positions, modules 1 and 2.
#![tactic(auto)]

mod common_shape; // common_shape.rt: the common shape, and whether a shape broadcasts to another
mod positions; // positions.rt: indices and their numbers

pub use common_shape::{broadcast_shapes, can_broadcast_to};
pub use positions::{cmp_index, ravel_index, unravel_index};
