ghost use Rattle.std.specs.Prelude.{◌≡◌, ℕ, ◌+◌, ◌<◌, ◌≤◌, length, All};
ghost use Rattle.engines.specs.Breaking.{Inside, broken, FirstBroken};

use crate::entry::Entry;
use congruence::rooting::together;
use keepers::Keeper;

// Whether an entry is a `differ` entry whose two pictures are in one class.
fn is_broken<K: Keeper>(k: &mut K, entry: &Entry) -> bool
    requires { Inside (length (K.reps k.old)) entry.now }
    ensures answer { result ≡ broken (K.reps k.old) entry.now }
    ensures same { K.reps k.new ≡ K.reps k.old }
{
    match entry {
        Entry::Same(_, _) => false,
        Entry::Differ(a, b) => together(k, *a, *b),
    }
}

// The place of the first broken entry. The loop cannot be a `position`: a proof knows nothing of what a closure answers that changes the keeper.
pub fn first_broken<K: Keeper>(k: &mut K, entries: &[Entry]) -> Option<usize>
    requires { All (Inside (length (K.reps k.old))) entries.now }
    ensures answer { FirstBroken (K.reps k.old) entries.now result }
    ensures same { K.reps k.new ≡ K.reps k.old }
{
    for (i, entry) in entries.iter().enumerate() {
        if is_broken(k, entry) {
            return Some(i);
        }
    }
    None
}
