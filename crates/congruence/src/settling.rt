ghost use Rattle.std.specs.Prelude.{◌≡◌, ℕ, ◌<◌, ◌≤◌, true, List, length, Some, IfSome, vec_len, vec_capacity, ◌-◌, slice_set};
ghost use Rattle.keepers.specs.Meaning.{rep, Within, Upto};
ghost use Rattle.indexes.specs.Meaning.{held};
ghost use Rattle.rows.specs.Row.{cells_of};
ghost use Rattle.theory.specs.Reasons.{Fits};
ghost use Rattle.congruence.specs.Drawn.{drawn, sheet, held_at, reason_of, reasons, inputs_held};
ghost use Rattle.congruence.specs.Working.{Ready, Counted, Apart, Inward, Holding, Progress, Grows, Any};
ghost use Rattle.congruence.specs.Waiting.{Idle, Swept, Visited, Looked, Another, Going, Working};

use crate::journal::{Cause, Join};
use crate::merging::merge;
use crate::rooting::together;
use crate::tracked::Tracked;
use indexes::{Index, Row};
use keepers::Keeper;

// Looks the signature of picture p up, and enters it where it is not held. Answers the picture to which it leads where that is in another class.
fn visit<K: Keeper, I: Index>(k: &mut K, index: &mut I, op: u16, row: &Row, p: u16) -> Option<u16>
    requires on { Within (K.reps k.old) p }
    requires inward { Inward (length (K.reps k.old)) (held (I.leads index.old)) }
    ensures same { K.reps k.new ≡ K.reps k.old }
    ensures another { IfSome result (λ q. Another (K.reps k.old) p q) }
    ensures inward { Inward (length (K.reps k.old)) (held (I.leads index.new)) }
    ensures visited { length (I.leads index.old) < 1024 → Visited (rep (K.reps k.old)) (held (I.leads index.old)) (held (I.leads index.new)) op (cells_of row.now) p result }
{
    match index.query(op, row.as_slice()) {
        Some(q) => {
            if together(k, q, p) {
                return None;
            }
            Some(q)
        }
        None => {
            let _ = index.enter(op, row.as_slice(), p);
            None
        }
    }
}

// Looks at picture p if it waits. Answers a picture of another class to which its signature leads; else it waits no more.
fn look<K: Keeper, I: Index, S: Tracked>(
    k: &mut K,
    index: &mut I,
    pictures: &mut S,
    p: u16,
) -> Option<u16>
    requires on { Within (K.reps k.old) p }
    requires held { p ≤ length (S.seen pictures.old) }
    requires inward { Inward (length (K.reps k.old)) (held (I.leads index.old)) }
    ensures same { K.reps k.new ≡ K.reps k.old }
    ensures drawn { drawn (held_at (S.seen pictures.new) (p - 1)) ≡ drawn (held_at (S.seen pictures.old) (p - 1)) }
    ensures inputs { (held_at (S.seen pictures.new) (p - 1)).inputs ≡ (held_at (S.seen pictures.old) (p - 1)).inputs }
    ensures only { S.seen pictures.new ≡ slice_set (S.seen pictures.old) (p - 1) (held_at (S.seen pictures.new) (p - 1)) }
    ensures frame { S.frame pictures.new ≡ S.frame pictures.old }
    ensures another { IfSome result (λ q. Another (K.reps k.old) p q) }
    ensures inward { Inward (length (K.reps k.old)) (held (I.leads index.new)) }
    ensures looked { ((held_at (S.seen pictures.old) (p - 1)).waits ≡ true → length (I.leads index.old) < 1024) → Looked (rep (K.reps k.old)) (held (I.leads index.old)) (held (I.leads index.new)) p (held_at (S.seen pictures.old) (p - 1)) (held_at (S.seen pictures.new) (p - 1)) result }
{
    let i = p as usize - 1;
    if !pictures.waits(i) {
        return None;
    }
    if let Some(q) = visit(k, index, pictures.op(i), pictures.row(i), p) {
        return Some(q);
    }
    pictures.rest(i);
    None
}

// Looks at the pictures that wait, as far as two twins of different classes.
fn sweep<K: Keeper, I: Index, S: Tracked>(
    k: &mut K,
    index: &mut I,
    pictures: &mut S,
) -> Option<Join>
    requires counted { Counted (K.reps k.old) (S.seen pictures.old) }
    requires inward { Inward (length (S.seen pictures.old)) (held (I.leads index.old)) }
    ensures same { K.reps k.new ≡ K.reps k.old }
    ensures sheet { sheet (S.seen pictures.new) ≡ sheet (S.seen pictures.old) }
    ensures inputs { inputs_held (S.seen pictures.new) ≡ inputs_held (S.seen pictures.old) }
    ensures frame { S.frame pictures.new ≡ S.frame pictures.old }
    ensures inward { Inward (length (S.seen pictures.old)) (held (I.leads index.new)) }
    ensures found { IfSome result (λ j. Apart (K.reps k.old) j) }
    ensures going { Ready (K.reps k.old) (sheet (S.seen pictures.old)) → Going (rep (K.reps k.old)) (S.seen pictures.old) (held (I.leads index.old)) → Going (rep (K.reps k.old)) (S.seen pictures.new) (held (I.leads index.new)) }
    ensures swept { Ready (K.reps k.old) (sheet (S.seen pictures.old)) → Going (rep (K.reps k.old)) (S.seen pictures.old) (held (I.leads index.old)) → Swept (rep (K.reps k.old)) (S.seen pictures.new) result }
{
    // by number, which a look asks for: an enumeration would count from 0 and be no plainer
    for p in 1..=pictures.count() as u16 {
        if let Some(q) = look(k, index, pictures, p) {
            return Some(Join {
                left: p,
                right: q,
                cause: Cause::Twins,
            });
        }
    }
    None
}

// Joins twins until they are all together.
pub fn settle<K: Keeper, I: Index, S: Tracked>(
    k: &mut K,
    index: &mut I,
    pictures: &mut S,
    journal: &mut Vec<Join>,
)
    requires holding { Holding (K.reps k.old) (S.seen pictures.old) (held (I.leads index.old)) journal.old.items }
    requires room { 1024 ≤ vec_capacity journal.old }
    ensures holding { Holding (K.reps k.new) (S.seen pictures.new) (held (I.leads index.new)) journal.new.items }
    ensures progress { Progress (K.reps k.old) (K.reps k.new) (length journal.old.items) (length journal.new.items) }
    ensures space { vec_capacity journal.new ≡ vec_capacity journal.old }
    ensures sheet { sheet (S.seen pictures.new) ≡ sheet (S.seen pictures.old) }
    ensures inputs { inputs_held (S.seen pictures.new) ≡ inputs_held (S.seen pictures.old) }
    ensures frame { S.frame pictures.new ≡ S.frame pictures.old }
    ensures working { Working (K.reps k.old) (S.seen pictures.old) (held (I.leads index.old)) journal.old.items → Working (K.reps k.new) (S.seen pictures.new) (held (I.leads index.new)) journal.new.items }
    ensures idle { Working (K.reps k.old) (S.seen pictures.old) (held (I.leads index.old)) journal.old.items → Idle (S.seen pictures.new) }
    ensures grows { Working (K.reps k.old) (S.seen pictures.old) (held (I.leads index.old)) journal.old.items → Grows (sheet (S.seen pictures.old)) Any journal.old.items journal.new.items }
{
    while let Some(join) = sweep(k, index, pictures) {
        merge(k, index, pictures, journal, join);
    }
}

// Joins two pictures for a cause, and then twins until they are all together.
pub fn tie<K: Keeper, I: Index, S: Tracked>(
    k: &mut K,
    index: &mut I,
    pictures: &mut S,
    journal: &mut Vec<Join>,
    join: Join,
)
    requires holding { Holding (K.reps k.old) (S.seen pictures.old) (held (I.leads index.old)) journal.old.items }
    requires room { 1024 ≤ vec_capacity journal.old }
    requires on { Upto (length (S.seen pictures.old)) join.left × Upto (length (S.seen pictures.old)) join.right }
    ensures holding { Holding (K.reps k.new) (S.seen pictures.new) (held (I.leads index.new)) journal.new.items }
    ensures progress { Progress (K.reps k.old) (K.reps k.new) (length journal.old.items) (length journal.new.items) }
    ensures space { vec_capacity journal.new ≡ vec_capacity journal.old }
    ensures sheet { sheet (S.seen pictures.new) ≡ sheet (S.seen pictures.old) }
    ensures inputs { inputs_held (S.seen pictures.new) ≡ inputs_held (S.seen pictures.old) }
    ensures frame { S.frame pictures.new ≡ S.frame pictures.old }
    ensures working { Working (K.reps k.old) (S.seen pictures.old) (held (I.leads index.old)) journal.old.items → Working (K.reps k.new) (S.seen pictures.new) (held (I.leads index.new)) journal.new.items }
    ensures idle { Working (K.reps k.old) (S.seen pictures.old) (held (I.leads index.old)) journal.old.items → Idle (S.seen pictures.old) → Idle (S.seen pictures.new) }
    ensures grows { Working (K.reps k.old) (S.seen pictures.old) (held (I.leads index.old)) journal.old.items → Grows (sheet (S.seen pictures.old)) (λ E. Fits (sheet (S.seen pictures.old)) E (reasons journal.old.items) (reason_of join)) journal.old.items journal.new.items }
    ensures joined { Working (K.reps k.old) (S.seen pictures.old) (held (I.leads index.old)) journal.old.items → rep (K.reps k.new) join.left ≡ rep (K.reps k.new) join.right }
{
    if together(k, join.left, join.right) {
        return;
    }
    merge(k, index, pictures, journal, join);
    settle(k, index, pictures, journal);
}
