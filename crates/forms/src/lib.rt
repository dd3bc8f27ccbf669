// Forms: whether two sound records are the same, and records that are made of a shape or of another record.
#![tactic(auto)]

mod equality; // equality.rt: whether two records are the same
mod writing; // writing.rt: a record written from its pieces
mod rows; // rows.rt: rows that become a sparse record

pub use equality::{eq_nonzeros, eq_nonzeros_and_deps};
pub use rows::sparse;
pub use writing::{dense, diagonal, new_empty, new_scalar, to_data_layout, to_dense};
