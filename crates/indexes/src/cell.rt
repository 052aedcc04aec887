ghost use Rattle.std.specs.Prelude.{◌≡◌, refl};
ghost use Rattle.std.specs.Option.{option_map};
ghost use Rattle.rows.specs.Row.{cells_of};
ghost use Rattle.indexes.specs.Records.{redirected};
ghost use Rattle.indexes.specs.Buckets.{link_of, led_to, spare, lead_in, bears_at};

use super::record::Record;
use super::signature::Signature;
use chains::{Linked, Test};

// A cell of a chained index: the record that it holds, none where it is free, and the number of the next cell of its chain.
#[derive(Clone, Copy)]
pub struct Cell {
    body: Option<Record>,
    next: u16,
}

impl Linked for Cell {
    ghost after = { link_of };

    ghost led = { led_to };

    ghost leads = { λ r n. refl };

    ghost kept = { λ r. refl };

    ghost again = { λ r m n. refl };

    fn next(&self) -> u16 {
        self.next
    }

    fn lead(&mut self, n: u16) {
        self.next = n;
    }
}

// A cell passes where it holds the signature.
impl Test<Cell> for Signature {
    ghost passes = { λ s c. bears_at c s.op (cells_of s.row) };

    fn test(&self, c: &Cell) -> bool {
        c.body
            .is_some_and(|r| r.bears(self.op, self.row.as_slice()))
    }
}

impl Cell {
    // A cell that holds this record.
    pub fn new(body: Record) -> Cell
        ensures { result ≡ record { body = Some body; next = 0 } }
    {
        Cell {
            body: Some(body),
            next: 0,
        }
    }

    // A free cell.
    pub fn spare() -> Cell
        ensures { result ≡ spare }
    {
        Cell {
            body: None,
            next: 0,
        }
    }

    // The picture to which its signature leads, if it holds one.
    pub fn picture(&self) -> Option<u16>
        ensures { result ≡ option_map (λ e. e.picture) (lead_in self.now) }
    {
        self.body.map(|r| r.picture())
    }

    // Makes its signature lead to another picture, if it holds one.
    pub fn lead_to(&mut self, picture: u16)
        ensures next { self.new.next ≡ self.old.next }
        ensures lead { lead_in self.new ≡ option_map (redirected picture) (lead_in self.old) }
    {
        if let Some(r) = &mut self.body {
            r.lead_to(picture);
        }
    }
}
