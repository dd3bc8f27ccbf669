// Loops over a shape and over positions: what is judged of them, and the number of an index.
#![tactic(auto)]

mod numbers; // numbers.rt: numbers among the arguments
mod extents; // extents.rt: one shape
mod positions; // positions.rt: indices and their numbers

pub use extents::{any_zero, extent, good_shape, over_shape, rank, stretches, within_product};
pub use numbers::{
    comparable, good_components, good_index, good_indices, list_count, natural_at, over_count,
    up_to,
};
pub use positions::{ravel, unravel};
