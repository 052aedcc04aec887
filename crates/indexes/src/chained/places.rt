ghost use Rattle.std.specs.Prelude.{◌≡◌, [], IfOk, None, MatchOption};
ghost use Rattle.rows.specs.Row.{cells_of};
ghost use Rattle.indexes.specs.Meaning.{held};
ghost use Rattle.indexes.specs.Buckets.{leads_of, Located};

use super::Chained;
use crate::index::LIMIT;
use crate::signature::Signature;
use chains::{Found, walk};
use std::alloc::{AllocError, Global};

impl Chained {
    // An index that holds no signature. Takes its whole memory here.
    pub fn new(heap: Global) -> Result<Chained, AllocError>
        ensures { IfOk result (λ i. leads_of i.cells.items ≡ []) }
    {
        let heads = vec![in heap; 0u16; 1025]?;
        let cells = Vec::with_capacity(heap, LIMIT)?;
        Ok(Chained { heads, cells })
    }

    // The cell with a signature, and the one before it in its chain.
    pub(super) fn place(&self, s: &Signature) -> Option<Found>
        ensures { MatchOption result (held (leads_of self.now.cells.items) s.now.op (cells_of s.now.row) ≡ None) (λ f. Located self.now.cells.items self.now.heads.items s.now.op (cells_of s.now.row) f) }
    {
        let head = self.heads[s.bucket()];
        walk(self.cells.as_slice(), head, s).unwrap_or(None)
    }
}
