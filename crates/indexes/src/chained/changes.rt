ghost use Rattle.std.specs.Prelude.{◌≡◌, ℕ, List, length, is_ok, true, if◌then◌else◌, ◌≢◌, nat_lt, slice_index};
ghost use Rattle.rows.specs.Row.{cells_of};
ghost use Rattle.indexes.specs.Meaning.{held, leading};
ghost use Rattle.indexes.specs.Buckets.{leads_of, Located};

use super::Chained;
use crate::cell::Cell;
use crate::index::{IndexFault, LIMIT};
use crate::record::Record;
use crate::signature::Signature;
use chains::Found;

impl Chained {
    // Sees to it that there is a free cell. Refused where 1,024 signatures are held.
    pub(super) fn spare(&mut self) -> Result<(), IndexFault>
        ensures answer { result ≡ (if nat_lt (length (leads_of self.old.cells.items)) 1024 then Ok tt else Err IndexFault.Full) }
        ensures same { leads_of self.new.cells.items ≡ leads_of self.old.cells.items }
        ensures free { is_ok result ≡ true → slice_index self.new.heads.items 0 ≢ 0 }
    {
        if self.heads[0] != 0 {
            return Ok(());
        }
        let made = self.cells.len();
        if made >= LIMIT {
            return Err(IndexFault::Full);
        }
        self.cells.push_reserved(Cell::spare());
        self.heads[0] = self.cells.len() as u16;
        Ok(())
    }

    // Takes the first free cell into use, for a signature that is not held.
    pub(super) fn admit(&mut self, s: &Signature, picture: u16)
        requires free { slice_index self.old.heads.items 0 ≢ 0 }
        requires absent { held (leads_of self.old.cells.items) s.now.op (cells_of s.now.row) ≡ None }
        ensures { (q : ℕ) (v : List ℕ) → held (leads_of self.new.cells.items) q v ≡ leading (held (leads_of self.old.cells.items)) s.now.op (cells_of s.now.row) (Some picture) q v }
    {
        let f = Found {
            before: 0,
            cell: self.heads[0],
        };
        self.shift(0, f, s.bucket(), Cell::new(Record::new(*s, picture)));
    }

    // Makes the signature of a cell lead to another picture.
    pub(super) fn relead(&mut self, s: &Signature, f: Found, picture: u16)
        requires { Located self.old.cells.items self.old.heads.items s.now.op (cells_of s.now.row) f }
        ensures { (q : ℕ) (v : List ℕ) → held (leads_of self.new.cells.items) q v ≡ leading (held (leads_of self.old.cells.items)) s.now.op (cells_of s.now.row) (Some picture) q v }
    {
        self.cells[f.cell as usize - 1].lead_to(picture);
    }

    // Frees the cell of a signature.
    pub(super) fn free(&mut self, s: &Signature, f: Found)
        requires { Located self.old.cells.items self.old.heads.items s.now.op (cells_of s.now.row) f }
        ensures { (q : ℕ) (v : List ℕ) → held (leads_of self.new.cells.items) q v ≡ leading (held (leads_of self.old.cells.items)) s.now.op (cells_of s.now.row) None q v }
    {
        self.shift(s.bucket(), f, 0, Cell::spare());
    }
}
