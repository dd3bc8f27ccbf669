// The public functions on lists, modules 12 and 13: the step reads the records where they lie.
#![tactic(auto)]

mod broadcasting; // broadcasting.rt: layouts folded by an operator
mod joining; // joining.rt: blocks joined to one layout

pub use broadcasting::{broadcast, broadcast_with_mode};
pub use joining::concatenate;
