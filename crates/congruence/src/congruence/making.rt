ghost use Rattle.std.specs.Prelude.{◌≡◌, ℕ, ◌<◌, ◌≤◌, [], ◌∷◌, ◌++◌, length, IfOk, All, vec_len, vec_capacity};
ghost use Rattle.keepers.specs.Meaning.{Upto};
ghost use Rattle.rows.specs.Row.{cells_of};
ghost use Rattle.congruence.specs.Drawn.{sheet, inputs_held};
ghost use Rattle.congruence.specs.Working.{Grows, Any};
ghost use Rattle.congruence.specs.Waiting.{Idle};
ghost use Rattle.congruence.specs.Whole.{Works, Holds, DrawnOne};

use crate::congruence::Congruence;
use crate::picture::Picture;
use crate::rooting::roots;
use indexes::{Index, Row};
use keepers::{Keeper, KeeperFault};
use std::alloc::{AllocError, Global};

impl<K: Keeper + Drop, I: Index + Drop> Congruence<K, I> {
    // No picture yet, with this keeper and this index, both reset first. All memory is taken here.
    pub fn new(heap: Global, mut keeper: K, mut index: I) -> Result<Congruence<K, I>, AllocError>
        ensures works { IfOk result (λ c. Works K.Keeper I.Index c) }
        ensures empty { IfOk result (λ c. (c.pictures.items ≡ []) × (c.journal.items ≡ [])) }
        ensures room { IfOk result (λ c. (1024 ≤ vec_capacity c.pictures) × (1024 ≤ vec_capacity c.journal)) }
    {
        keeper.reset();
        index.reset();
        let pictures = Vec::with_capacity(heap, 1024)?;
        let journal = Vec::with_capacity(heap, 1024)?;
        Ok(Congruence {
            keeper,
            index,
            pictures,
            journal,
        })
    }
}

impl<K: Keeper, I: Index> Congruence<K, I> {
    // One picture more, and then twins put together. Answers its number.
    pub fn draw(&mut self, op: u16, inputs: Row) -> Result<u16, KeeperFault>
        requires holds { Holds K.Keeper I.Index self.old }
        requires fed { All (Upto (length self.old.pictures.items)) (cells_of inputs) }
        requires few { length self.old.pictures.items < 1024 }
        requires room { vec_len self.old.pictures < vec_capacity self.old.pictures }
        ensures holds { Holds K.Keeper I.Index self.new }
        ensures space { (vec_capacity self.new.pictures ≡ vec_capacity self.old.pictures) × (vec_capacity self.new.journal ≡ vec_capacity self.old.journal) }
        ensures drawn { DrawnOne K.Keeper op (cells_of inputs) self.old self.new result }
        ensures inputs { IfOk result (λ n. inputs_held self.new.pictures.items ≡ inputs_held self.old.pictures.items ++ inputs ∷ []) }
        ensures working { Works K.Keeper I.Index self.old → Works K.Keeper I.Index self.new }
        ensures idle { Works K.Keeper I.Index self.old → Idle self.old.pictures.items → Idle self.new.pictures.items }
        ensures grows { Works K.Keeper I.Index self.old → Grows (sheet self.new.pictures.items) Any self.old.journal.items self.new.journal.items }
    {
        let number = self.keeper.grow()?;
        let row = roots(&mut self.keeper, &inputs);
        self.pictures.push_reserved(Picture {
            op,
            inputs,
            row,
            waits: true,
        });
        self.settle();
        Ok(number)
    }
}
