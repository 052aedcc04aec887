ghost use Rattle.std.specs.Prelude.{◌≡◌, ℕ, ◌+◌, ◌<◌, ◌≤◌, List, [], ◌∷◌, ◌++◌, length, take, IfOk, vec_len};
ghost use Rattle.keepers.specs.Meaning.{class_count};
ghost use Rattle.theory.specs.Sheet.{same, differ};
ghost use Rattle.theory.specs.Calls.{tell, Answers, after};
ghost use Rattle.theory.specs.Calls.{add as adding};
ghost use Rattle.congruence.specs.Drawn.{reasons};
ghost use Rattle.congruence.specs.Working.{Fresh, Grows, Any};
ghost use Rattle.congruence.specs.Waiting.{Idle};
ghost use Rattle.congruence.specs.Whole.{Works};
ghost use Rattle.reasons.specs.Table.{Explained};
ghost use Rattle.engines.specs.Content.{content, pictures_on, entries_on};
ghost use Rattle.engines.specs.Faults.{add_reply, same_reply, differ_reply};
ghost use Rattle.engines.specs.Whole.{Whole};
ghost use Rattle.engines.specs.Tables.{ToldTable};

use crate::answer::{Added, Joined};
use crate::entry::Entry;
use crate::fault::{Clash, SheetFault};
use crate::open::Open;
use crate::open::breaking::first_broken;
use crate::open::checks::{any_missing, check_entry};
use congruence::{Cause, Join};
use indexes::{Index, Row};
use keepers::Keeper;
use reasons::Step;

impl<K: Keeper, I: Index> Open<K, I> {
    // Adds a picture. Answers its number and the lowest number in its class.
    pub fn add(&mut self, op: u16, inputs: &[u16]) -> Result<Added, SheetFault>
        requires { Whole K.Keeper I.Index self.old }
        ensures whole { Whole K.Keeper I.Index self.new }
        ensures answer { Answers K.Keeper.limit (content self.old) (adding op inputs.now) (add_reply result) }
        ensures after { content self.new ≡ after (content self.old) (adding op inputs.now) (add_reply result) }
    {
        let Some(row) = Row::new(inputs) else {
            return Err(SheetFault::Inputs);
        };
        let n = self.picture_count();
        if any_missing(n, inputs) {
            return Err(SheetFault::NoPicture);
        }
        if n >= 1024 {
            return Err(SheetFault::Full);
        }
        let number = self.congruence.draw(op, row)?;
        let lowest = self.congruence.lowest(number);
        Ok(Added { number, lowest })
    }

    // Takes the entry that two pictures are the same. Answers its number and its joins.
    pub fn same(&mut self, table: &mut [Step], a: u16, b: u16) -> Result<Joined, SheetFault>
        requires { Whole K.Keeper I.Index self.old }
        ensures whole { Whole K.Keeper I.Index self.new }
        ensures answer { Answers K.Keeper.limit (content self.old) (tell (same a b) (length table.old)) (same_reply result) }
        ensures after { content self.new ≡ after (content self.old) (tell (same a b) (length table.old)) (same_reply result) }
        ensures joins { IfOk result (λ j. class_count (K.Keeper.reps self.new.congruence.keeper) + j.joins ≡ class_count (K.Keeper.reps self.old.congruence.keeper)) }
        ensures table { ToldTable (pictures_on self.old) (entries_on self.old ++ same a b ∷ []) table.old table.new result }
    {
        let entry = check_entry(table.len(), self.picture_count(), self.entry_count(), a, b)?;
        let joined = self.congruence.journal().len();
        self.congruence.tie(Join {
            left: a,
            right: b,
            cause: Cause::Entry(entry),
        });
        match first_broken(&mut self.congruence.keeper, self.entries.as_slice()) {
            None => {
                self.entries.push_reserved(Entry::Same(a, b));
                Ok(Joined {
                    entry,
                    joins: (self.congruence.journal().len() - joined) as u16,
                })
            }
            Some(i) => {
                let broken = self.entries[i];
                let steps = self.withdraw(table, broken.left(), broken.right(), joined);
                Err(SheetFault::Contradiction(Clash {
                    broken: i as u16 + 1,
                    steps,
                }))
            }
        }
    }

    // Writes a chain that joins two pictures, and goes back to the first joins of the journal. Answers the number of steps.
    fn withdraw(&mut self, table: &mut [Step], a: u16, b: u16, to: usize) -> u16
        requires working { Works K.Keeper I.Index self.old.congruence }
        requires fresh { Fresh (pictures_on self.old) self.old.congruence.journal.items }
        requires limit { length (pictures_on self.old) ≤ K.Keeper.limit }
        requires cells { 1024 ≤ length table.old }
        ensures explained { Explained (pictures_on self.old) (reasons self.old.congruence.journal.items) a b result table.old table.new }
        ensures working { Works K.Keeper I.Index self.new.congruence }
        ensures idle { Idle self.new.congruence.pictures.items }
        ensures grows { Grows (pictures_on self.old) Any (take to self.old.congruence.journal.items) self.new.congruence.journal.items }
        ensures content { content self.new ≡ content self.old }
    {
        let steps = self.explain(table, a, b);
        self.congruence.restore(to);
        self.explainer.cut(to);
        steps
    }

    // Takes the entry that two pictures differ. Answers its number.
    pub fn differ(&mut self, table: &mut [Step], a: u16, b: u16) -> Result<u16, SheetFault>
        requires { Whole K.Keeper I.Index self.old }
        ensures whole { Whole K.Keeper I.Index self.new }
        ensures answer { Answers K.Keeper.limit (content self.old) (tell (differ a b) (length table.old)) (differ_reply result) }
        ensures after { content self.new ≡ after (content self.old) (tell (differ a b) (length table.old)) (differ_reply result) }
        ensures table { ToldTable (pictures_on self.old) (entries_on self.old ++ differ a b ∷ []) table.old table.new result }
    {
        let entry = check_entry(table.len(), self.picture_count(), self.entry_count(), a, b)?;
        if self.congruence.together(a, b) {
            let steps = self.explain(table, a, b);
            return Err(SheetFault::Contradiction(Clash {
                broken: entry,
                steps,
            }));
        }
        self.entries.push_reserved(Entry::Differ(a, b));
        Ok(entry)
    }
}
