ghost use Rattle.std.specs.Prelude.{◌≡◌, ℕ, ◌≤◌, length, vec_capacity};
ghost use Rattle.keepers.specs.Meaning.{rep, Upto};
ghost use Rattle.indexes.specs.Meaning.{held};
ghost use Rattle.rows.specs.Row.{cells_of};
ghost use Rattle.theory.specs.Reasons.{Fits};
ghost use Rattle.congruence.specs.Drawn.{beside, sheet, inputs_held, reasons, reason_of};
ghost use Rattle.congruence.specs.Working.{Holding, Progress, Grows};
ghost use Rattle.congruence.specs.Waiting.{Idle, Working};

use congruence::restoring::restore;
use congruence::rooting::together;
use congruence::settling::tie;
use congruence::{Beside, Cause, Join, Note, Picture};
use indexes::{Chained, Index, Plain, Row};
use keepers::{Keeper, Links, Relabel, populate};
use std::test::Fail;

// Ties a join into a closure of pictures that are only lent: all that `tie` promises, said of the pictures and the notes.
fn tie_beside<K: Keeper, I: Index>(
    k: &mut K,
    index: &mut I,
    pictures: &[Picture],
    notes: &mut [Note],
    journal: &mut Vec<Join>,
    join: Join,
)
    requires holding { Holding (K.reps k.old) (beside pictures.now notes.old) (held (I.leads index.old)) journal.old.items }
    requires room { 1024 ≤ vec_capacity journal.old }
    requires sized { length notes.old ≡ length pictures.now }
    requires on { Upto (length pictures.now) join.left × Upto (length pictures.now) join.right }
    ensures holding { Holding (K.reps k.new) (beside pictures.now notes.new) (held (I.leads index.new)) journal.new.items }
    ensures progress { Progress (K.reps k.old) (K.reps k.new) (length journal.old.items) (length journal.new.items) }
    ensures space { vec_capacity journal.new ≡ vec_capacity journal.old }
    ensures sheet { sheet (beside pictures.now notes.new) ≡ sheet (beside pictures.now notes.old) }
    ensures inputs { inputs_held (beside pictures.now notes.new) ≡ inputs_held (beside pictures.now notes.old) }
    ensures sized { length notes.new ≡ length notes.old }
    ensures working { Working (K.reps k.old) (beside pictures.now notes.old) (held (I.leads index.old)) journal.old.items → Working (K.reps k.new) (beside pictures.now notes.new) (held (I.leads index.new)) journal.new.items }
    ensures idle { Working (K.reps k.old) (beside pictures.now notes.old) (held (I.leads index.old)) journal.old.items → Idle (beside pictures.now notes.old) → Idle (beside pictures.now notes.new) }
    ensures grows { Working (K.reps k.old) (beside pictures.now notes.old) (held (I.leads index.old)) journal.old.items → Grows (sheet (beside pictures.now notes.old)) (λ E. Fits (sheet (beside pictures.now notes.old)) E (reasons journal.old.items) (reason_of join)) journal.old.items journal.new.items }
    ensures joined { Working (K.reps k.old) (beside pictures.now notes.old) (held (I.leads index.old)) journal.old.items → rep (K.reps k.new) join.left ≡ rep (K.reps k.new) join.right }
{
    let mut lent = Beside { pictures, notes };
    tie(k, index, &mut lent, journal, join);
}

// A picture of an operation on the pictures with these numbers.
fn drawn(op: u16, inputs: &[u16]) -> Picture
    requires { length inputs.now ≤ 4 }
    ensures { cells_of result.inputs ≡ inputs.now }
{
    Picture {
        inputs: Row::new(inputs).unwrap(),
        row: Row::none(),
        op,
        waits: false,
    }
}

// Two sources, and the same operation on each. Two closures share these pictures: the first hears that the sources are one, the second does not.
#[test]
fn shared_pictures(rt: HostRuntime) -> Result<(), Fail> {
    let heap = rt.alloc();
    let pictures = [drawn(1, &[]), drawn(2, &[]), drawn(3, &[1]), drawn(3, &[2])];
    let blank = Note {
        row: Row::none(),
        waits: false,
    };

    let mut k = Links::new(heap)?;
    let mut index = Chained::new(heap)?;
    let mut journal = Vec::with_capacity(heap, 1024)?;
    let mut notes = [blank; 4];
    populate(&mut k, 4).unwrap();
    let mut lent = Beside {
        pictures: &pictures,
        notes: &mut notes,
    };
    restore(&mut k, &mut index, &mut lent, &mut journal, 0);

    let mut l = Relabel::new(heap)?;
    let mut list = Plain::new(heap)?;
    let mut joins = Vec::with_capacity(heap, 1024)?;
    let mut others = [blank; 4];
    populate(&mut l, 4).unwrap();
    let mut also = Beside {
        pictures: &pictures,
        notes: &mut others,
    };
    restore(&mut l, &mut list, &mut also, &mut joins, 0);

    let join = Join {
        left: 1,
        right: 2,
        cause: Cause::Entry(1),
    };
    tie(&mut k, &mut index, &mut lent, &mut journal, join);
    assert!(rt; together(&mut k, 3, 4));
    assert!(rt; !together(&mut l, 3, 4));
    assert_eq!(rt; pictures[2].inputs.as_slice(), [1].as_slice());
    Ok(())
}
