ghost use Rattle.std.specs.Prelude.{◌≡◌, ℕ, ◌≤◌, true, length, take, vec_len, vec_capacity, All};
ghost use Rattle.keepers.specs.Meaning.{rep, Upto};
ghost use Rattle.indexes.specs.Meaning.{held};
ghost use Rattle.theory.specs.Sheet.{On, Ordered};
ghost use Rattle.congruence.specs.Drawn.{sheet, inputs_held};
ghost use Rattle.congruence.specs.Working.{Counted, Holding, Books, Grows, Fresh, Placed, Any};
ghost use Rattle.congruence.specs.Waiting.{row, noted, waits, Idle, Working};

use crate::journal::Join;
use crate::rooting::{roots, together, unite};
use crate::settling::settle;
use crate::tracked::Tracked;
use indexes::Index;
use keepers::{Keeper, populate};

// Makes the joins of a journal again, from pictures that are each alone.
fn replay<K: Keeper, S: Tracked>(k: &mut K, pictures: &S, journal: &[Join])
    requires counted { Counted (K.reps k.old) (S.seen pictures.now) }
    requires limit { length (S.seen pictures.now) ≤ K.limit }
    requires placed { All (Placed (sheet (S.seen pictures.now))) journal.now }
    requires fresh { Fresh (sheet (S.seen pictures.now)) journal.now }
    ensures counted { Counted (K.reps k.new) (S.seen pictures.now) }
    ensures books { Books (K.reps k.new) (sheet (S.seen pictures.now)) journal.now }
{
    populate(k, pictures.count()).unwrap();
    for join in journal {
        unite(k, join);
    }
}

// Notes the row of each picture anew, and lets each wait.
fn renote<K: Keeper, S: Tracked>(k: &mut K, pictures: &mut S)
    requires { Counted (K.reps k.old) (S.seen pictures.old) }
    ensures same { K.reps k.new ≡ K.reps k.old }
    ensures sheet { sheet (S.seen pictures.new) ≡ sheet (S.seen pictures.old) }
    ensures inputs { inputs_held (S.seen pictures.new) ≡ inputs_held (S.seen pictures.old) }
    ensures frame { S.frame pictures.new ≡ S.frame pictures.old }
    ensures rows { (p : ℕ) → On (sheet (S.seen pictures.old)) p → noted (S.seen pictures.new) p ≡ row (rep (K.reps k.old)) (sheet (S.seen pictures.old)) p }
    ensures waits { (p : ℕ) → On (sheet (S.seen pictures.old)) p → waits (S.seen pictures.new) p ≡ true }
{
    // by place: pictures may be lent with the notes beside them, and no reference to both at once can be handed out
    for i in 0..pictures.count() {
        let row = roots(k, &pictures.inputs(i));
        pictures.note(i, row);
    }
}

// How many joins of the journal, from the first on, put two pictures together. The keeper then has the classes of these joins.
pub fn reach<K: Keeper>(k: &mut K, n: u16, journal: &[Join], a: u16, b: u16) -> usize
    requires few { n ≤ K.limit }
    requires on { Upto n a × Upto n b }
    ensures within { result ≤ length journal.now }
    ensures counted { length (K.reps k.new) ≡ n }
{
    populate(k, n as usize).unwrap();
    for (i, join) in journal.iter().enumerate() {
        if together(k, a, b) {
            return i;
        }
        let _ = k.join(join.left, join.right);
    }
    journal.len()
}

// Goes back to the first joins of the journal, and puts twins together from there.
pub fn restore<K: Keeper, I: Index, S: Tracked>(
    k: &mut K,
    index: &mut I,
    pictures: &mut S,
    journal: &mut Vec<Join>,
    to: usize,
)
    requires counted { Counted (K.reps k.old) (S.seen pictures.old) }
    requires limit { length (S.seen pictures.old) ≤ K.limit }
    requires placed { All (Placed (sheet (S.seen pictures.old))) (take to journal.old.items) }
    requires fresh { Fresh (sheet (S.seen pictures.old)) (take to journal.old.items) }
    requires room { 1024 ≤ vec_capacity journal.old }
    ensures holding { Holding (K.reps k.new) (S.seen pictures.new) (held (I.leads index.new)) journal.new.items }
    ensures space { vec_capacity journal.new ≡ vec_capacity journal.old }
    ensures sheet { sheet (S.seen pictures.new) ≡ sheet (S.seen pictures.old) }
    ensures inputs { inputs_held (S.seen pictures.new) ≡ inputs_held (S.seen pictures.old) }
    ensures frame { S.frame pictures.new ≡ S.frame pictures.old }
    ensures working { Ordered (sheet (S.seen pictures.old)) → Working (K.reps k.new) (S.seen pictures.new) (held (I.leads index.new)) journal.new.items }
    ensures idle { Ordered (sheet (S.seen pictures.old)) → Idle (S.seen pictures.new) }
    ensures grows { Ordered (sheet (S.seen pictures.old)) → Grows (sheet (S.seen pictures.old)) Any (take to journal.old.items) journal.new.items }
{
    journal.truncate(to);
    replay(k, pictures, journal);
    index.reset();
    renote(k, pictures);
    settle(k, index, pictures, journal);
}
