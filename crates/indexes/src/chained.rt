ghost use Rattle.std.specs.Prelude.{◌≡◌, ℕ, ◌<◌, ◌≤◌, true, map, vec_len, vec_capacity, slice_index};
ghost use Rattle.indexes.specs.Meaning.{apart};
ghost use Rattle.indexes.specs.Buckets.{link_of, bucket_of, leads_of, SortedOut};

use super::cell::Cell;

// The index whose records are chained by a next index: each of 1,024 buckets has a chain of the used cells whose
// signatures hash to it, and the chain of bucket 0 has the free cells. The rules want this index of linked records, and no call may allocate, so it is
// no map of the library.
#[derive(Drop)]
pub struct Chained {
    heads: Vec<u16>,
    cells: Vec<Cell>,
    ghost buckets: { vec_len heads ≡ 1025 },
    ghost table: { vec_len cells ≤ 1024 },
    ghost room: { 1024 ≤ vec_capacity cells },
    ghost once: { apart (leads_of cells.items) ≡ true },
    ghost sorted: { (b : ℕ) → b < 1025 → SortedOut (map link_of cells.items) (map bucket_of cells.items) (slice_index heads.items b) b },
}

// the calls of an index
pub mod calls;
// how a signature is entered, led to another picture and freed
mod changes;
// how a cell goes from one bucket to another
mod moves;
// a new index, and where a signature stands
mod places;
