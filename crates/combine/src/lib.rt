// One layout made of two in a window of parts: left, right, target, and two that are spare room.
#![tactic(auto)]

mod window; // window.rt: what every rule for two layouts shares
mod uniting; // uniting.rt: the union

pub use uniting::union_in;
pub use window::{
    LEFT_DENSE, LEFT_RANK, OTHER_SPARE_ROWS, SPARE_ROWS, TARGET_ROWS, Way, complete_bare,
    either_bars, either_lists, is_dense, lower_both, lower_dense, made, same_shapes, way_of,
    write_head,
};
