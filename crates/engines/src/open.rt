ghost use Rattle.std.specs.Prelude.{◌≤◌, vec_len, vec_capacity};

use crate::entry::Entry;
use congruence::Congruence;
use indexes::Index;
use keepers::{Keeper, Links};
use reasons::Explainer;

// A sheet that can be told pictures and entries: its pictures with their classes, its entries, and what tells reason chains from its joins. All memory
// is taken when the sheet is put together. What ties keeper and index to the entries stands in the record `Whole`, and not in ghost fields: in a struct
// that owns memory they cannot name what a bound's trait says.
#[derive(Drop)]
pub struct Open<K: Keeper, I: Index> {
    congruence: Congruence<K, I>,
    entries: Vec<Entry>,
    explainer: Explainer<Links>,
    ghost few: { vec_len entries ≤ 2048 },
    ghost entry_room: { 2048 ≤ vec_capacity entries },
    ghost picture_room: { 1024 ≤ vec_capacity congruence.pictures },
    ghost journal_room: { 1024 ≤ vec_capacity congruence.journal },
}

// the checks of the calls
pub mod checks;
// the broken entry
pub mod breaking;
// what a sheet is put together from
pub mod making;
// the calls that tell a sheet something
pub mod telling;
// the calls that ask a sheet something
pub mod asking;
// the values that a locked sheet shows
pub mod valuing;
