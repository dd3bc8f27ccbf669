// The public face: every function of the library under one name. Each judges what its caller hands over and asks nothing of it.
#![tactic(auto)]

mod refusals; // refusals.rt: refusals by number

pub use form_calls::{dense, diagonal, new_empty, new_scalar, sparse, to_data_layout, to_dense};
pub use list_calls::{broadcast, broadcast_with_mode, concatenate};
pub use pair_calls::{filter_deps_from, intersect, union};
pub use pile::{exchange, exchange_all};
pub use record_calls::{
    eq_nonzeros, eq_nonzeros_and_deps, find_nnz_index, find_nnz_indices, min_rank, nnz,
};
pub use records::{ordered, row, sound};
pub use refusals::number_of;
pub use reshape_calls::{contract_last_axis, permute};
pub use shape_calls::{broadcast_shapes, can_broadcast_to, cmp_index, ravel_index, unravel_index};
pub use stretch_calls::{
    broadcast_to_rank, broadcast_to_rank_with_mode, broadcast_to_shape,
    broadcast_to_shape_with_mode,
};
