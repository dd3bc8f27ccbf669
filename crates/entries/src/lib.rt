// What blocks list: their rows and dependencies, moved by their starts, those of all blocks in order and once each in one table.
#![tactic(auto)]

mod entries; // entries.rt: the entries of a block, one by one
mod standing; // standing.rt: entries that stand in a record as they are listed
mod merging; // merging.rt: the entries of all blocks

pub use entries::Listed;
pub use merging::merge_blocks;
