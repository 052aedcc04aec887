// Class keepers, which group pictures into classes and answer a representative for each.
#![tactic(auto)]

// what a keeper is, and what its calls promise
pub mod keeper;
// what follows from the promises of any keeper
pub mod counting;
// the keeper that relabels each member of a class
pub mod relabel;
// the keeper that follows parent links
pub mod links;
// a link of that keeper
mod link;

pub use counting::{classes, is_same, join_counted, populate};
pub use keeper::{Keeper, KeeperFault, Outcome};
pub use links::Links;
pub use relabel::Relabel;
