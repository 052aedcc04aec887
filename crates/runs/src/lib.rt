// Runs: a row of calls on a sheet just put together, and what is promised of it whatever the calls are.
#![tactic(auto)]

// the calls that a run is made of
pub mod call;
// what they answer
pub mod answer;
// the sheet of a run, open or locked
pub(crate) mod state;
// one call of a run
pub(crate) mod making;
// the run
pub mod running;

pub use answer::{Answer, Reply};
pub use call::Call;
pub use running::run;
