ghost use Rattle.std.specs.Prelude.{◌≡◌, ℕ, ◌<◌, ◌≤◌, List, [], ◌∷◌, ◌++◌, map, length, slice_set, vec_len, vec_capacity};
ghost use Rattle.keepers.specs.Meaning.{rep, Unites, moved};
ghost use Rattle.indexes.specs.Meaning.{held};
ghost use Rattle.theory.specs.Sheet.{On};
ghost use Rattle.congruence.specs.Drawn.{sheet, inputs_held, held_at};
ghost use Rattle.congruence.specs.Working.{Apart, Inward};
ghost use Rattle.congruence.specs.Waiting.{noted, waits, Free, Posted, Withdrawn, Working};

use crate::journal::Join;
use crate::rooting::{root, unite};
use crate::tracked::Tracked;
use indexes::Index;
use keepers::Keeper;
use keepers::relabel::relabel_row;

// Takes the picture at place i out of the index, notes its new row, and lets it wait, if its row has the lost representative. A source is passed over before
// its row is looked through: each merge looks at every picture, and that look is a call.
fn withdraw<I: Index, S: Tracked>(index: &mut I, pictures: &mut S, i: usize, lost: u16, heir: u16)
    requires { i < length (S.seen pictures.old) }
    ensures withdrawn { Withdrawn (moved lost heir) lost (held_at (S.seen pictures.old) i) (held_at (S.seen pictures.new) i) (held (I.leads index.old)) (held (I.leads index.new)) }
    ensures only { S.seen pictures.new ≡ slice_set (S.seen pictures.old) i (held_at (S.seen pictures.new) i) }
    ensures inputs { (held_at (S.seen pictures.new) i).inputs ≡ (held_at (S.seen pictures.old) i).inputs }
    ensures frame { S.frame pictures.new ≡ S.frame pictures.old }
{
    let row = pictures.row(i).as_slice();
    if !row.is_empty() && row.contains(&lost) {
        index.delete(pictures.op(i), pictures.row(i).as_slice());
        let mut row = *pictures.row(i);
        row.change(|cells| relabel_row(cells, lost, heir));
        pictures.note(i, row);
    }
}

// Does so with each picture.
fn withdraw_all<I: Index, S: Tracked>(index: &mut I, pictures: &mut S, lost: u16, heir: u16)
    ensures sheet { sheet (S.seen pictures.new) ≡ sheet (S.seen pictures.old) }
    ensures inputs { inputs_held (S.seen pictures.new) ≡ inputs_held (S.seen pictures.old) }
    ensures frame { S.frame pictures.new ≡ S.frame pictures.old }
    ensures inward { (n : ℕ) → Inward n (held (I.leads index.old)) → Inward n (held (I.leads index.new)) }
    ensures rows { (p : ℕ) → On (sheet (S.seen pictures.old)) p → noted (S.seen pictures.new) p ≡ map (moved lost heir) (noted (S.seen pictures.old) p) }
    ensures posted { (f : ℕ → ℕ) → Posted f (sheet (S.seen pictures.old)) (noted (S.seen pictures.old)) (held (I.leads index.old)) (waits (S.seen pictures.old)) (Free lost) → Posted f (sheet (S.seen pictures.old)) (noted (S.seen pictures.new)) (held (I.leads index.new)) (waits (S.seen pictures.new)) (Free lost) }
{
    // by place: pictures may be lent with the notes beside them, and no reference to both at once can be handed out
    for i in 0..pictures.count() {
        withdraw(index, pictures, i, lost, heir);
    }
}

// Makes the two classes of a join one, writes it into the journal, and lets the pictures wait whose signature changes.
pub fn merge<K: Keeper, I: Index, S: Tracked>(
    k: &mut K,
    index: &mut I,
    pictures: &mut S,
    journal: &mut Vec<Join>,
    join: Join,
)
    requires apart { Apart (K.reps k.old) join }
    requires room { vec_len journal.old < vec_capacity journal.old }
    ensures unites { Unites join.left join.right (K.reps k.old) (K.reps k.new) }
    ensures joined { rep (K.reps k.new) join.left ≡ rep (K.reps k.new) join.right }
    ensures items { journal.new.items ≡ journal.old.items ++ join ∷ [] }
    ensures space { vec_capacity journal.new ≡ vec_capacity journal.old }
    ensures sheet { sheet (S.seen pictures.new) ≡ sheet (S.seen pictures.old) }
    ensures inputs { inputs_held (S.seen pictures.new) ≡ inputs_held (S.seen pictures.old) }
    ensures frame { S.frame pictures.new ≡ S.frame pictures.old }
    ensures inward { (n : ℕ) → Inward n (held (I.leads index.old)) → Inward n (held (I.leads index.new)) }
    ensures working { Working (K.reps k.old) (S.seen pictures.old) (held (I.leads index.old)) journal.old.items → Working (K.reps k.new) (S.seen pictures.new) (held (I.leads index.new)) journal.new.items }
{
    let a = root(k, join.left);
    let b = root(k, join.right);
    unite(k, &join);
    journal.push_reserved(join);
    let heir = root(k, join.left);
    let lost = if heir == a { b } else { a };
    withdraw_all(index, pictures, lost, heir);
}
