// The sheet: pictures and entries, the classes that they force, and the calls by which a host tells it and asks it.
#![tactic(auto)]

// what the calls answer
pub mod answer;
// why a call is refused
pub mod fault;
// what an entry says
pub mod entry;
// the sheet that can be told pictures and entries
pub mod open;
// the sheet that shows its values
pub mod locked;

pub use answer::{Added, Joined};
pub use entry::Entry;
pub use fault::{Clash, SheetFault};
pub use locked::Locked;
pub use open::Open;
pub use reasons::Step;
