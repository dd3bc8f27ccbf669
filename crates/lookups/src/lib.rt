// What a sound record is asked: the place of an index or of many, how many positions it stores, and how many axes it has.
#![tactic(auto)]

mod lookup; // lookup.rt: the place of an index
mod many; // many.rt: the places of many indices
mod counts; // counts.rt: how many positions and axes

pub use counts::{min_rank, nnz};
pub use lookup::find;
pub use many::find_all;
