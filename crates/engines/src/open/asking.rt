ghost use Rattle.std.specs.Prelude.{◌≡◌, ℕ, ◌+◌, ◌<◌, ◌≤◌, length};
ghost use Rattle.keepers.specs.Meaning.{class_count};
ghost use Rattle.theory.specs.Sheet.{Classes};
ghost use Rattle.theory.specs.Calls.{Answers};
ghost use Rattle.theory.specs.Calls.{must as asking};
ghost use Rattle.theory.specs.Calls.{why as asking_why};
ghost use Rattle.congruence.specs.Drawn.{reasons};
ghost use Rattle.congruence.specs.Whole.{Works, Alike};
ghost use Rattle.reasons.specs.Table.{Explained};
ghost use Rattle.engines.specs.Content.{content, pictures_on, entries_on};
ghost use Rattle.engines.specs.Faults.{must_reply, why_reply};
ghost use Rattle.engines.specs.Whole.{Whole};
ghost use Rattle.engines.specs.Tables.{WhyTable};

use crate::fault::SheetFault;
use crate::open::Open;
use crate::open::checks::check_pair;
use indexes::Index;
use keepers::Keeper;
use reasons::{Question, Step};

// That the content stays is a clause of each call: it says what the call does, which no field can say.
impl<K: Keeper, I: Index> Open<K, I> {
    // Whether two pictures are in one class. Nothing of what the sheet means changes.
    pub fn must(&mut self, a: u16, b: u16) -> Result<bool, SheetFault>
        requires { Whole K.Keeper I.Index self.old }
        ensures whole { Whole K.Keeper I.Index self.new }
        ensures answer { Answers K.Keeper.limit (content self.old) (asking a b) (must_reply result) }
        ensures same { content self.new ≡ content self.old }
        ensures alike { Alike K.Keeper self.old.congruence self.new.congruence }
    {
        check_pair(self.picture_count(), a, b)?;
        Ok(self.congruence.together(a, b))
    }

    // Writes a reason chain that joins two pictures of one class into the step table, and answers its number of steps. Nothing of what the sheet means changes.
    pub fn why(&mut self, table: &mut [Step], a: u16, b: u16) -> Result<u16, SheetFault>
        requires { Whole K.Keeper I.Index self.old }
        ensures whole { Whole K.Keeper I.Index self.new }
        ensures answer { Answers K.Keeper.limit (content self.old) (asking_why a b (length table.old)) (why_reply result) }
        ensures same { content self.new ≡ content self.old }
        ensures table { WhyTable (pictures_on self.old) (entries_on self.old) a b table.old table.new result }
    {
        if table.len() < 1024 {
            return Err(SheetFault::FewCells);
        }
        check_pair(self.picture_count(), a, b)?;
        if !self.congruence.together(a, b) {
            return Err(SheetFault::Apart);
        }
        Ok(self.explain(table, a, b))
    }

    // Writes a reason chain that joins two pictures, where the journal does, and answers its number of steps.
    pub(super) fn explain(&mut self, table: &mut [Step], a: u16, b: u16) -> u16
        requires working { Works K.Keeper I.Index self.old.congruence }
        requires cells { 1024 ≤ length table.old }
        ensures congruence { self.new.congruence ≡ self.old.congruence }
        ensures entries { self.new.entries ≡ self.old.entries }
        ensures explained { Explained (pictures_on self.old) (reasons self.old.congruence.journal.items) a b result table.old table.new }
    {
        let asked = Question {
            pictures: self.congruence.pictures(),
            journal: self.congruence.journal(),
            a,
            b,
        };
        self.explainer.explain(table, &asked)
    }

    // The number of classes.
    pub fn classes(&self) -> u16
        requires { Whole K.Keeper I.Index self.now }
        ensures answer { Classes (pictures_on self.now) (entries_on self.now) result }
        ensures counted { result ≡ class_count (K.Keeper.reps self.now.congruence.keeper) }
    {
        (self.picture_count() - self.congruence.journal().len()) as u16
    }
}
