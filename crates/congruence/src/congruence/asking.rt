ghost use Rattle.std.specs.Prelude.{◌≡◌, ℕ, map, All, ◌==◌};
ghost use Rattle.keepers.specs.Meaning.{rep, Within};
ghost use Rattle.indexes.specs.Meaning.{held};
ghost use Rattle.rows.specs.Row.{cells_of};
ghost use Rattle.congruence.specs.Working.{Lowest};
ghost use Rattle.congruence.specs.Whole.{Alike};

use crate::congruence::Congruence;
use crate::journal::Join;
use crate::picture::Picture;
use crate::rooting::{lowest, roots, together};
use indexes::{Index, Row};
use keepers::Keeper;

impl<K: Keeper, I: Index> Congruence<K, I> {
    // The pictures, in order.
    pub fn pictures(&self) -> &[Picture]
        ensures { result.now ≡ self.now.pictures.items }
    {
        self.pictures.as_slice()
    }

    // The joins that made the classes, in order.
    pub fn journal(&self) -> &[Join]
        ensures { result.now ≡ self.now.journal.items }
    {
        self.journal.as_slice()
    }

    // Whether two pictures are in one class.
    pub fn together(&mut self, p: u16, q: u16) -> bool
        requires { Within (K.reps self.old.keeper) p × Within (K.reps self.old.keeper) q }
        ensures answer { result ≡ (rep (K.reps self.old.keeper) p == rep (K.reps self.old.keeper) q) }
        ensures same { Alike K.Keeper self.old self.new }
    {
        together(&mut self.keeper, p, q)
    }

    // The lowest number in the class of a picture.
    pub fn lowest(&mut self, p: u16) -> u16
        requires { Within (K.reps self.old.keeper) p }
        ensures answer { Lowest (K.reps self.old.keeper) p result }
        ensures same { Alike K.Keeper self.old self.new }
    {
        lowest(&mut self.keeper, p)
    }

    // The picture to which the signature of an operation with these inputs leads.
    pub fn bearer(&mut self, op: u16, inputs: &Row) -> Option<u16>
        requires { All (Within (K.reps self.old.keeper)) (cells_of inputs.now) }
        ensures answer { result ≡ held (I.leads self.old.index) op (map (rep (K.reps self.old.keeper)) (cells_of inputs.now)) }
        ensures same { Alike K.Keeper self.old self.new }
    {
        let row = roots(&mut self.keeper, inputs);
        self.index.query(op, row.as_slice())
    }
}
