// Signature indexes, which lead from a signature (an operation and a row of representatives) to a picture that bears it.
#![tactic(auto)]

// what an index is, and what its calls promise
pub mod index;
// what follows from the promises of any index
pub mod meeting;
// a signature, as an index stores it
pub mod signature;
// a signature and its picture, as an index stores them
pub mod record;
// the index that is a plain list of records
pub mod plain;
// a place for a record in a chain
mod cell;
// the index whose records are chained by bucket
pub mod chained;

pub use chained::Chained;
pub use index::{Index, IndexFault, LIMIT};
pub use meeting::find_or_enter;
pub use plain::Plain;

// At most four picture numbers, in order: the inputs of a picture, or their representatives.
pub type Row = rows::Row<4>;
