// Chains of records in a lent slice, for every kind of record that has a next: cells are numbered from 1, and a next of 0 ends a chain.
#![tactic(auto)]

// what a record with a next is
pub mod linked;
// why a call is refused
pub mod fault;
// walks along a chain
pub mod walks;
// calls that build and change chains
pub mod builds;

pub use builds::{append, push, thread, unlink};
pub use fault::ChainFault;
pub use linked::Linked;
pub use walks::{Found, Test, walk};
