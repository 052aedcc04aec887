ghost use Rattle.std.specs.Prelude.{◌≡◌, ◌≤◌, vec_len, vec_capacity};

use crate::forest::Forest;
use congruence::Join;
use keepers::Keeper;

// Two pictures that have yet to be joined by marked joins.
#[derive(Clone, Copy)]
struct Pair {
    here: u16,
    there: u16,
}

// Tells reason chains from a journal of joins: it guesses by its forest which joins two pictures need, certifies the guess with a keeper of its own,
// and takes all joins where the guess was bad. All memory is taken when it is made.
#[derive(Drop)]
pub struct Explainer<S: Keeper> {
    scratch: S,
    forest: Forest,
    // whether each join of the journal is needed, beside it, since the journal is the sheet's
    marks: Vec<bool>,
    todo: Vec<Pair>,
    // the joins that were marked, in order
    chosen: Vec<Join>,
    ghost marked: { vec_len marks ≡ 1024 },
    ghost room: { 1024 ≤ vec_capacity todo },
    ghost place: { 1024 ≤ vec_capacity chosen },
}

// which joins two pictures need
mod guessing;
// the calls
pub mod calls;
