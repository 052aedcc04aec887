// What follows from the promises of any keeper.
ghost use Rattle.std.specs.Prelude.{◌≡◌, ℕ, ◌+◌, ◌≤◌, min, length};
ghost use Rattle.keepers.specs.Meaning.{ends, class_count};
ghost use Rattle.keepers.specs.Counting.{Asked, Lowered, Populated};

use crate::keeper::{Keeper, KeeperFault};

// Whether two pictures are in one class. The meaning stays.
pub fn is_same<K: Keeper>(k: &mut K, p: u16, q: u16) -> Result<bool, KeeperFault>
    ensures answer { Asked p q (K.reps k.old) result }
    ensures same { K.reps k.new ≡ K.reps k.old }
{
    let a = k.find(p)?;
    let b = k.find(q)?;
    Ok(a == b)
}

// Joins two pictures, and answers by how many the number of classes fell: one where it joined two classes, else none.
pub fn join_counted<K: Keeper>(k: &mut K, p: u16, q: u16) -> Result<u8, KeeperFault>
    ensures { Lowered p q (K.reps k.old) (K.reps k.new) result }
{
    Ok(k.join(p, q)?.number())
}

// The number of classes among the pictures, of which the first 65,535 are looked at. The meaning stays. Unlike classes of congruence it asks
// nothing, not even that the count fits.
pub fn classes<K: Keeper>(k: &mut K) -> u16
    ensures answer { result ≡ ends (K.reps k.old) (min (length (K.reps k.old)) 65535) }
    ensures same { K.reps k.new ≡ K.reps k.old }
{
    let mut count = 0;
    for p in 1..=u16::MAX {
        let Ok(r) = k.find(p) else {
            return count;
        };
        count += u16::from(r == p);
    }
    count
}

// Forgets every picture, and then counts n of them, each alone; or as many as there is room for, and refuses where that is fewer than n.
pub fn populate<K: Keeper>(k: &mut K, n: usize) -> Result<(), KeeperFault>
    ensures { Populated K.limit n (K.reps k.new) result }
{
    k.reset();
    for _ in 0..n {
        k.grow()?;
    }
    Ok(())
}
