ghost use Rattle.std.specs.Prelude.{[], vec_capacity};

use crate::tracked::Tracked;
use indexes::Row;

// A picture: an operation, and its inputs, each an earlier picture. Beside it stand the row of its signature in the index, and whether it waits to be
// entered there; a picture that waits has a row too, the one under which it will stand. The rows come first, so that a picture takes no more room than it must:
// each merge goes over all of them.
#[derive(Clone, Copy)]
pub struct Picture {
    pub inputs: Row,
    pub row: Row,
    pub op: u16,
    pub waits: bool,
}

impl Tracked for Vec<Picture> {
    ghost seen = { λ v. v.items };

    ghost frame = { λ v. ([], [], vec_capacity v) };

    fn count(&self) -> usize {
        self.len()
    }

    fn op(&self, i: usize) -> u16 {
        self[i].op
    }

    fn inputs(&self, i: usize) -> Row {
        self[i].inputs
    }

    fn row(&self, i: usize) -> &Row {
        &self[i].row
    }

    fn waits(&self, i: usize) -> bool {
        self[i].waits
    }

    fn note(&mut self, i: usize, row: Row) {
        let picture = &mut self[i];
        picture.row = row;
        picture.waits = true;
    }

    fn rest(&mut self, i: usize) {
        self[i].waits = false;
    }
}
