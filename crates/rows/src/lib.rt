// Rows of numbers, held in place: at most N of them, N given with the type.
#![tactic(auto)]

// at most N numbers
pub mod row;

pub use row::{Row, RowFull};
