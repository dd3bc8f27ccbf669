// The public functions that ask something of records: module 4 and the counts and equality of module 5.
#![tactic(auto)]

mod lookup; // lookup.rt: the place of an index
mod indices; // indices.rt: the places of many indices
mod counts; // counts.rt: how many positions, how many axes, equality

pub use counts::{eq_nonzeros, eq_nonzeros_and_deps, min_rank, nnz};
pub use indices::find_nnz_indices;
pub use lookup::find_nnz_index;
