ghost use Rattle.std.specs.Prelude.{◌≡◌, ℕ, ◌<◌, ◌≤◌, List, [], ◌∷◌, ◌++◌, length, take, All, vec_len, vec_capacity};
ghost use Rattle.keepers.specs.Meaning.{rep, Upto, Unites};
ghost use Rattle.indexes.specs.Meaning.{held};
ghost use Rattle.theory.specs.Sheet.{Ordered};
ghost use Rattle.theory.specs.Reasons.{Fits};
ghost use Rattle.congruence.specs.Drawn.{sheet, reason_of, reasons, inputs_held};
ghost use Rattle.congruence.specs.Working.{Apart, Inward, Counted, Progress, Grows, Fresh, Placed, Any};
ghost use Rattle.congruence.specs.Waiting.{Idle};
ghost use Rattle.congruence.specs.Whole.{Works, Holds};

use crate::congruence::Congruence;
use crate::journal::Join;
use crate::merging::merge;
use crate::restoring::restore;
use crate::settling::{settle, tie};
use indexes::Index;
use keepers::Keeper;

// Each of these calls is a function over what a congruence holds, so that whoever has a keeper, an index, pictures and a journal only lent can call that:
// the pictures hold their notes, or have them beside them.
impl<K: Keeper, I: Index> Congruence<K, I> {
    // Makes the two classes of a join one, writes it into the journal, and lets the pictures wait whose signature changes.
    pub fn merge(&mut self, join: Join)
        requires apart { Apart (K.reps self.old.keeper) join }
        requires room { vec_len self.old.journal < vec_capacity self.old.journal }
        ensures unites { Unites join.left join.right (K.reps self.old.keeper) (K.reps self.new.keeper) }
        ensures joined { rep (K.reps self.new.keeper) join.left ≡ rep (K.reps self.new.keeper) join.right }
        ensures items { self.new.journal.items ≡ self.old.journal.items ++ join ∷ [] }
        ensures space { vec_capacity self.new.journal ≡ vec_capacity self.old.journal }
        ensures places { vec_capacity self.new.pictures ≡ vec_capacity self.old.pictures }
        ensures sheet { sheet self.new.pictures.items ≡ sheet self.old.pictures.items }
        ensures inputs { inputs_held self.new.pictures.items ≡ inputs_held self.old.pictures.items }
        ensures inward { (n : ℕ) → Inward n (held (I.leads self.old.index)) → Inward n (held (I.leads self.new.index)) }
        ensures working { Works K.Keeper I.Index self.old → Works K.Keeper I.Index self.new }
    {
        merge(
            &mut self.keeper,
            &mut self.index,
            &mut self.pictures,
            &mut self.journal,
            join,
        );
    }

    // Joins twins until they are all together.
    pub fn settle(&mut self)
        requires { Holds K.Keeper I.Index self.old }
        ensures holds { Holds K.Keeper I.Index self.new }
        ensures progress { Progress (K.reps self.old.keeper) (K.reps self.new.keeper) (length self.old.journal.items) (length self.new.journal.items) }
        ensures space { vec_capacity self.new.journal ≡ vec_capacity self.old.journal }
        ensures places { vec_capacity self.new.pictures ≡ vec_capacity self.old.pictures }
        ensures sheet { sheet self.new.pictures.items ≡ sheet self.old.pictures.items }
        ensures inputs { inputs_held self.new.pictures.items ≡ inputs_held self.old.pictures.items }
        ensures working { Works K.Keeper I.Index self.old → Works K.Keeper I.Index self.new }
        ensures idle { Works K.Keeper I.Index self.old → Idle self.new.pictures.items }
        ensures grows { Works K.Keeper I.Index self.old → Grows (sheet self.old.pictures.items) Any self.old.journal.items self.new.journal.items }
    {
        settle(
            &mut self.keeper,
            &mut self.index,
            &mut self.pictures,
            &mut self.journal,
        );
    }

    // Joins two pictures for a cause, and then twins until they are all together.
    pub fn tie(&mut self, join: Join)
        requires holds { Holds K.Keeper I.Index self.old }
        requires on { Upto (length self.old.pictures.items) join.left × Upto (length self.old.pictures.items) join.right }
        ensures holds { Holds K.Keeper I.Index self.new }
        ensures progress { Progress (K.reps self.old.keeper) (K.reps self.new.keeper) (length self.old.journal.items) (length self.new.journal.items) }
        ensures space { vec_capacity self.new.journal ≡ vec_capacity self.old.journal }
        ensures places { vec_capacity self.new.pictures ≡ vec_capacity self.old.pictures }
        ensures sheet { sheet self.new.pictures.items ≡ sheet self.old.pictures.items }
        ensures inputs { inputs_held self.new.pictures.items ≡ inputs_held self.old.pictures.items }
        ensures working { Works K.Keeper I.Index self.old → Works K.Keeper I.Index self.new }
        ensures idle { Works K.Keeper I.Index self.old → Idle self.old.pictures.items → Idle self.new.pictures.items }
        ensures grows { Works K.Keeper I.Index self.old → Grows (sheet self.old.pictures.items) (λ E. Fits (sheet self.old.pictures.items) E (reasons self.old.journal.items) (reason_of join)) self.old.journal.items self.new.journal.items }
        ensures joined { Works K.Keeper I.Index self.old → rep (K.reps self.new.keeper) join.left ≡ rep (K.reps self.new.keeper) join.right }
    {
        tie(
            &mut self.keeper,
            &mut self.index,
            &mut self.pictures,
            &mut self.journal,
            join,
        );
    }

    // Goes back to the first joins of the journal, and puts twins together from there.
    pub fn restore(&mut self, to: usize)
        requires counted { Counted (K.reps self.old.keeper) self.old.pictures.items }
        requires limit { length self.old.pictures.items ≤ K.limit }
        requires placed { All (Placed (sheet self.old.pictures.items)) (take to self.old.journal.items) }
        requires fresh { Fresh (sheet self.old.pictures.items) (take to self.old.journal.items) }
        requires room { 1024 ≤ vec_capacity self.old.journal }
        ensures holds { Holds K.Keeper I.Index self.new }
        ensures space { vec_capacity self.new.journal ≡ vec_capacity self.old.journal }
        ensures places { vec_capacity self.new.pictures ≡ vec_capacity self.old.pictures }
        ensures sheet { sheet self.new.pictures.items ≡ sheet self.old.pictures.items }
        ensures inputs { inputs_held self.new.pictures.items ≡ inputs_held self.old.pictures.items }
        ensures working { Ordered (sheet self.old.pictures.items) → Works K.Keeper I.Index self.new }
        ensures idle { Ordered (sheet self.old.pictures.items) → Idle self.new.pictures.items }
        ensures grows { Ordered (sheet self.old.pictures.items) → Grows (sheet self.old.pictures.items) Any (take to self.old.journal.items) self.new.journal.items }
    {
        restore(
            &mut self.keeper,
            &mut self.index,
            &mut self.pictures,
            &mut self.journal,
            to,
        );
    }
}
