// Reason chains: why two pictures are in one class, told from the journal of joins and written into the host's step table.
#![tactic(auto)]

// a cell of the step table
pub mod step;
// what is asked of an explainer
pub mod question;
// the inputs of a picture
mod inputs;
// the joins of a journal as a forest
mod forest;
// whether marked joins are enough
mod certify;
// joins written as a chain
pub mod table;
// reason chains on demand
pub mod explainer;

pub use explainer::Explainer;
pub use question::Question;
pub use step::Step;
pub use table::write_chain;
