ghost use Rattle.std.specs.Prelude.{◌≡◌, ℕ, ◌+◌, ◌<◌, ◌≤◌, ◌≢◌, List, map, length, All, ◌==◌};
ghost use Rattle.keepers.specs.Meaning.{rep, Within, Upto, Unites, class_count};
ghost use Rattle.rows.specs.Row.{cells_of};
ghost use Rattle.congruence.specs.Working.{Lowest};

use crate::journal::Join;
use indexes::Row;
use keepers::{Keeper, Outcome};

// The representative of a picture.
pub fn root<K: Keeper>(k: &mut K, p: u16) -> u16
    requires { Within (K.reps k.old) p }
    ensures answer { result ≡ rep (K.reps k.old) p }
    ensures same { K.reps k.new ≡ K.reps k.old }
{
    k.find(p).unwrap()
}

// Whether two pictures are in one class. Unlike `is_same` of the keepers it is asked of pictures only, and cannot fail.
pub fn together<K: Keeper>(k: &mut K, p: u16, q: u16) -> bool
    requires on { Within (K.reps k.old) p × Within (K.reps k.old) q }
    ensures answer { result ≡ (rep (K.reps k.old) p == rep (K.reps k.old) q) }
    ensures same { K.reps k.new ≡ K.reps k.old }
{
    root(k, p) == root(k, q)
}

// The representatives of a row.
pub fn roots<K: Keeper>(k: &mut K, row: &Row) -> Row
    requires { All (Within (K.reps k.old)) (cells_of row.now) }
    ensures answer { cells_of result ≡ map (rep (K.reps k.old)) (cells_of row.now) }
    ensures same { K.reps k.new ≡ K.reps k.old }
{
    let mut roots = Row::none();
    for x in row.as_slice() {
        let Ok(()) = roots.push(root(k, *x)) else {
            unreachable!()
        };
    }
    roots
}

// The lowest number in the class of a picture. In place of the loop a chain of iterators would call a closure that changes the keeper, and of what such a
// closure answers a proof knows nothing; so it is below.
pub fn lowest<K: Keeper>(k: &mut K, p: u16) -> u16
    requires { Within (K.reps k.old) p }
    ensures answer { Lowest (K.reps k.old) p result }
    ensures same { K.reps k.new ≡ K.reps k.old }
{
    for q in 1..p {
        if together(k, q, p) {
            return q;
        }
    }
    p
}

// The number of classes among the pictures 1 to n. Unlike classes of the keepers it is given the count, and promises the number of classes itself.
pub fn classes<K: Keeper>(k: &mut K, n: u16) -> u16
    requires { n ≡ length (K.reps k.old) }
    ensures answer { result ≡ class_count (K.reps k.old) }
    ensures same { K.reps k.new ≡ K.reps k.old }
{
    let mut c = 0;
    for p in 1..=n {
        if root(k, p) == p {
            c += 1;
        }
    }
    c
}

// Makes the two classes of a join one.
pub fn unite<K: Keeper>(k: &mut K, join: &Join)
    requires on { Within (K.reps k.old) join.now.left × Within (K.reps k.old) join.now.right }
    requires apart { rep (K.reps k.old) join.now.left ≢ rep (K.reps k.old) join.now.right }
    ensures { Unites join.now.left join.now.right (K.reps k.old) (K.reps k.new) }
{
    let Ok(Outcome::Merged) = k.join(join.left, join.right) else {
        unreachable!()
    };
}
