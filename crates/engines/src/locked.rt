use crate::open::Open;
use indexes::Index;
use keepers::Keeper;

// A sheet that shows its values, and is told nothing until it is reopened. It comes only from an open sheet, by lock.
// That it is whole stands in `WholeLocked`, and not in a ghost field, for the reason given at `Open`.
#[derive(Drop)]
pub struct Locked<K: Keeper, I: Index> {
    sheet: Open<K, I>,
}

// lock and reopen
pub mod turning;
// the calls that ask a locked sheet something
pub mod showing;
