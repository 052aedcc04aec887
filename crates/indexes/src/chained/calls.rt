ghost use Rattle.indexes.specs.Buckets.{leads_of};
ghost use Rattle.std.proofs.Common.{arith};
ghost use Rattle.indexes.specs.Spares.{leads_few};

use super::Chained;
use crate::index::{Index, IndexFault};
use crate::signature::Signature;

impl Index for Chained {
    ghost leads = { λ s. leads_of s.cells.items };

    ghost once = { λ s. s.once };

    ghost few = { λ s. omega (arith, leads_few s.cells.items, s.table) };

    fn reset(&mut self) {
        self.heads.as_mut_slice().fill(0);
        self.cells.clear();
    }

    fn enter(&mut self, op: u16, row: &[u16], picture: u16) -> Result<(), IndexFault> {
        let s = Signature::new(op, row).ok_or(IndexFault::Inputs)?;
        match self.place(&s) {
            Some(f) => self.relead(&s, f, picture),
            None => {
                self.spare()?;
                self.admit(&s, picture);
            }
        }
        Ok(())
    }

    fn query(&self, op: u16, row: &[u16]) -> Option<u16> {
        let f = self.place(&Signature::new(op, row)?)?;
        self.cells[f.cell as usize - 1].picture()
    }

    fn delete(&mut self, op: u16, row: &[u16]) {
        let Some(s) = Signature::new(op, row) else {
            return;
        };
        if let Some(f) = self.place(&s) {
            self.free(&s, f);
        }
    }
}
