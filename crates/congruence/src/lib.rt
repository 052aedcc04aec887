// The congruence closure of a row of pictures, kept up to date through any class keeper and any signature index.
#![tactic(auto)]

// pictures, and what is noted of them while classes are joined
pub mod tracked;
// pictures that hold their notes
pub mod picture;
// pictures that are only lent, with notes beside them
pub mod beside;
// the joins that were made, in order
pub mod journal;
// representatives of pictures and of rows
pub mod rooting;
// two classes made one
pub mod merging;
// twins put together
pub mod settling;
// classes made again from a journal
pub mod restoring;
// pictures and the classes that their joins force
pub mod congruence;

pub use beside::{Beside, Note};
pub use congruence::Congruence;
pub use journal::{Cause, Join};
pub use picture::Picture;
pub use tracked::Tracked;
