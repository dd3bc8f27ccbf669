// Blocks joined to one layout in a window of parts.
#![tactic(auto)]

mod assembling; // assembling.rt: the layout of each way

pub use assembling::concatenate_into;
