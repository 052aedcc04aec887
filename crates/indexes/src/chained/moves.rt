ghost use Rattle.std.specs.Prelude.{◌≡◌, ℕ, ◌-◌, ◌<◌, true, List, ◌∷◌, ◌++◌, map, ◌≢◌, slice_index, slice_set};
ghost use Rattle.chains.specs.Chain.{Chain, last_or};
ghost use Rattle.indexes.specs.Meaning.{apart};
ghost use Rattle.indexes.specs.Buckets.{link_of, lead_in, bucket_of, somes, leads_of, On, left_out, moved_cell};

use super::Chained;
use crate::cell::Cell;
use chains::{Found, push, unlink};

// Takes a cell out of the chain `from`, writes what it is to hold, and puts it in front of the chain `to`.
// Answers the head of the chain that it left.
fn move_cell(cells: &mut [Cell], from: u16, f: Found, to: u16, b: Cell) -> u16
    requires { On (map link_of cells.old) from f }
    ensures records { cells.new ≡ moved_cell cells.old f to b }
    ensures left { (front rest : List ℕ) → Chain (map link_of cells.old) from (front ++ f.cell ∷ rest) → f.before ≡ last_or 0 front → Chain (map link_of (left_out cells.old f)) result (front ++ rest) }
{
    let Ok(out) = unlink(cells, from, f) else {
        unreachable()
    };
    cells[f.cell as usize - 1] = b;
    let _ = push(cells, to, f.cell);
    out
}

impl Chained {
    // Moves a cell from the chain of one bucket to that of another, with what it is to hold.
    pub(super) fn shift(&mut self, from: usize, f: Found, to: usize, b: Cell)
        requires buckets { (from < 1025) × ((to < 1025) × ((from ≢ to))) }
        requires on { On (map link_of self.old.cells.items) (slice_index self.old.heads.items from) f }
        requires goes { bucket_of b ≡ to }
        requires once { apart (somes (slice_set (map lead_in self.old.cells.items) (f.cell - 1) (lead_in b))) ≡ true }
        ensures { leads_of self.new.cells.items ≡ somes (slice_set (map lead_in self.old.cells.items) (f.cell - 1) (lead_in b)) }
    {
        let out = move_cell(
            self.cells.as_mut_slice(),
            self.heads[from],
            f,
            self.heads[to],
            b,
        );
        self.heads[from] = out;
        self.heads[to] = f.cell;
    }
}
