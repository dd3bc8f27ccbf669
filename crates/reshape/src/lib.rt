// One layout made of another by cutting or moving its axes. A record is read where it lies, and the new layout goes into one part.
#![tactic(auto)]

mod contract; // contract.rt: the last axis summed over
mod permute; // permute.rt: the axes moved

pub use contract::contract_into;
pub use permute::permute_into;
