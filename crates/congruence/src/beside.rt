ghost use Rattle.std.specs.Prelude.{length, drop};
ghost use Rattle.congruence.specs.Drawn.{beside};

use crate::picture::Picture;
use crate::tracked::Tracked;
use indexes::Row;

// What is noted of a picture: the row of its signature in the index, and whether it waits to be entered there.
#[derive(Clone, Copy)]
pub struct Note {
    pub row: Row,
    pub waits: bool,
}

// Pictures that are only lent, and notes of one's own beside them: so several closures share one list of pictures. What the lent pictures note themselves is
// not looked at, nor are pictures without a note, or notes without a picture.
#[derive(Drop)]
pub struct Beside<'a> {
    pub pictures: &'a [Picture],
    pub notes: &'a mut [Note],
}

impl<'a> Tracked for Beside<'a> {
    ghost seen = { λ b. beside b.pictures.now b.notes.now };

    ghost frame = { λ b. (b.pictures.now, drop (length b.pictures.now) b.notes.now, b.notes.ghost_name) };

    fn count(&self) -> usize {
        self.pictures.len().min(self.notes.len())
    }

    fn op(&self, i: usize) -> u16 {
        let Some(picture) = self.pictures.get(i) else {
            unreachable!()
        };
        picture.op
    }

    fn inputs(&self, i: usize) -> Row {
        let Some(picture) = self.pictures.get(i) else {
            unreachable!()
        };
        picture.inputs
    }

    fn row(&self, i: usize) -> &Row {
        let notes = &*self.notes;
        let Some(note) = notes.get(i) else {
            unreachable!()
        };
        &note.row
    }

    fn waits(&self, i: usize) -> bool {
        let Some(note) = self.notes.get(i) else {
            unreachable!()
        };
        note.waits
    }

    #[tactic(auto, using(crate::proofs::Besides::beside_inside))]
    fn note(&mut self, i: usize, row: Row) {
        self.notes[i] = Note { row, waits: true };
    }

    #[tactic(auto, using(crate::proofs::Besides::beside_inside))]
    fn rest(&mut self, i: usize) {
        self.notes[i].waits = false;
    }
}
