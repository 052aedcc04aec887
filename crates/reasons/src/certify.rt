ghost use Rattle.std.specs.Prelude.{◌≡◌, ◌≤◌, true, length};
ghost use Rattle.std.specs.List.{AllZip};
ghost use Rattle.congruence.specs.Drawn.{sheet, reason_of, reasons};
ghost use Rattle.reasons.specs.Marks.{Enough, Alike, Stands, Absorbed};

use crate::inputs::inputs_of_both;
use crate::question::Question;
use congruence::{Cause, Join, Picture};
use keepers::{Keeper, is_same, populate};

// Whether two pictures are in one class. Unlike `together` it may be asked of any numbers, and says no of those that are no pictures.
fn one_class<S: Keeper>(scratch: &mut S, x: u16, y: u16) -> bool
    ensures answer { result ≡ true → Alike (S.reps scratch.old) x y }
    ensures same { S.reps scratch.new ≡ S.reps scratch.old }
{
    is_same(scratch, x, y).unwrap_or(false)
}

// Whether two rows are in one class in pairs. The loop cannot be an `all`: a proof knows nothing of what a closure answers that changes the keeper.
fn alike<S: Keeper>(scratch: &mut S, left: &[u16], right: &[u16]) -> bool
    ensures answer { result ≡ true → AllZip (Alike (S.reps scratch.old)) left.now right.now }
    ensures same { S.reps scratch.new ≡ S.reps scratch.old }
{
    if left.len() != right.len() {
        return false;
    }
    for (x, y) in left.iter().zip(right) {
        if !one_class(scratch, *x, *y) {
            return false;
        }
    }
    true
}

// Whether a join stands on what is in one class already.
fn stands<S: Keeper>(scratch: &mut S, pictures: &[Picture], join: &Join) -> bool
    ensures answer { result ≡ true → Stands (sheet pictures.now) (S.reps scratch.old) (reason_of join.now) }
    ensures same { S.reps scratch.new ≡ S.reps scratch.old }
{
    let Cause::Twins = join.cause else {
        return true;
    };
    match inputs_of_both(pictures, join) {
        Some((left, right)) => alike(scratch, left, right),
        None => false,
    }
}

// Makes the two classes of a join one, if it stands on what is in one class already.
fn absorb<S: Keeper>(scratch: &mut S, pictures: &[Picture], join: &Join) -> bool
    ensures { result ≡ true → Absorbed (sheet pictures.now) (reason_of join.now) (S.reps scratch.old) (S.reps scratch.new) }
{
    if !stands(scratch, pictures, join) {
        return false;
    }
    scratch.join(join.left, join.right).is_ok()
}

// Whether the marked joins stand on one another, and join the two pictures.
pub fn certify<S: Keeper>(scratch: &mut S, asked: &Question, marks: &[bool]) -> bool
    requires { length asked.now.journal.now ≤ length marks.now }
    ensures { result ≡ true → Enough (sheet asked.now.pictures.now) (reasons asked.now.journal.now) asked.now.a asked.now.b marks.now }
{
    let Ok(()) = populate(scratch, asked.pictures.len()) else {
        return false;
    };
    for (join, marked) in asked.journal.iter().zip(marks) {
        if *marked && !absorb(scratch, asked.pictures, join) {
            return false;
        }
    }
    one_class(scratch, asked.a, asked.b)
}
