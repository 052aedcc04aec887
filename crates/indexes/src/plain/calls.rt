ghost use Rattle.std.specs.Prelude.{◌≡◌, [], map, IfOk, None, MatchOption};
ghost use Rattle.rows.specs.Row.{cells_of};
ghost use Rattle.indexes.specs.Meaning.{held};
ghost use Rattle.indexes.specs.Records.{lead_of, Stands};
ghost use Rattle.std.proofs.Common.{arith};
ghost use Rattle.std.proofs.lemmas.List.{length-map};

use super::Plain;
use crate::index::{Index, IndexFault, LIMIT};
use crate::record::Record;
use crate::signature::Signature;
use std::alloc::{AllocError, Global};

impl Plain {
    // An index that holds no signature. Takes its whole memory here.
    pub fn new(heap: Global) -> Result<Plain, AllocError>
        ensures { IfOk result (λ i. map lead_of i.records.items ≡ []) }
    {
        let records = Vec::with_capacity(heap, LIMIT)?;
        Ok(Plain { records })
    }

    // Where the record with a signature stands.
    fn place(&self, s: &Signature) -> Option<usize>
        ensures { MatchOption result (held (map lead_of self.now.records.items) s.now.op (cells_of s.now.row) ≡ None) (λ i. Stands (map lead_of self.now.records.items) s.now.op (cells_of s.now.row) i) }
    {
        self.records
            .iter()
            .position(|r| r.bears(s.op, s.row.as_slice()))
    }
}

impl Index for Plain {
    ghost leads = { λ s. map lead_of s.records.items };

    ghost once = { λ s. s.once };

    ghost few = { λ s. simp length-map (omega arith) };

    fn reset(&mut self) {
        self.records.clear();
    }

    fn enter(&mut self, op: u16, row: &[u16], picture: u16) -> Result<(), IndexFault> {
        let s = Signature::new(op, row).ok_or(IndexFault::Inputs)?;
        match self.place(&s) {
            Some(i) => self.records[i].lead_to(picture),
            None => {
                if self.records.len() >= LIMIT {
                    return Err(IndexFault::Full);
                }
                self.records.push_reserved(Record::new(s, picture));
            }
        }
        Ok(())
    }

    fn query(&self, op: u16, row: &[u16]) -> Option<u16> {
        let i = self.place(&Signature::new(op, row)?)?;
        Some(self.records[i].picture())
    }

    fn delete(&mut self, op: u16, row: &[u16]) {
        let Some(s) = Signature::new(op, row) else {
            return;
        };
        if let Some(i) = self.place(&s) {
            self.records.remove(i);
        }
    }
}
