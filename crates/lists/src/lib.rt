// Things end to end in a slice, shapes, records or blocks: where each of them begins, and what is asked of all of them.
#![tactic(auto)]

mod walking; // walking.rt: where things begin
mod asks; // asks.rt: what each of them has to pass
mod soundness; // soundness.rt: whether records have too many axes, and whether they are sound
mod agreeing; // agreeing.rt: the common shape of shapes
mod starting; // starting.rt: where blocks start, and their flags

pub use agreeing::{agreed_shape, larger};
pub use asks::{Ask, all_pass};
pub use soundness::{all_sound, over_axes};
pub use starting::{block_starts, is_zero};
pub use walking::{Places, Thing, behind_record, moved, places_of};
