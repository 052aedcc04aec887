ghost use Rattle.std.specs.Prelude.{◌≡◌, ◌≤◌, min, length, IfOk, vec_capacity};
ghost use Rattle.theory.specs.Slices.{kept};
ghost use Rattle.congruence.specs.Drawn.{sheet, reasons};
ghost use Rattle.reasons.specs.Following.{followed};
ghost use Rattle.reasons.specs.Marks.{Chosen};
ghost use Rattle.reasons.specs.Table.{Rest, Explained};

use crate::certify::certify;
use crate::explainer::Explainer;
use crate::forest::Forest;
use crate::question::Question;
use crate::step::Step;
use crate::table::write_chain;
use congruence::Join;
use keepers::Keeper;
use std::alloc::{AllocError, Global};

// Takes the marked joins of a journal over.
fn gather(chosen: &mut Vec<Join>, journal: &[Join], marks: &[bool])
    requires { length journal.now ≤ vec_capacity chosen.old }
    ensures items { chosen.new.items ≡ kept marks.now journal.now }
    ensures capacity { vec_capacity chosen.new ≡ vec_capacity chosen.old }
{
    chosen.clear();
    for (join, marked) in journal.iter().zip(marks) {
        if *marked {
            chosen.push_reserved(*join);
        }
    }
}

impl<S: Keeper + Drop> Explainer<S> {
    // An explainer of a journal that has no join yet. Takes its whole memory here; the keeper is for its own use.
    pub fn new(heap: Global, scratch: S) -> Result<Explainer<S>, AllocError>
        ensures { IfOk result (λ e. followed e ≡ 0) }
    {
        let forest = Forest::new(heap)?;
        let todo = Vec::with_capacity(heap, 1024)?;
        let chosen = Vec::with_capacity(heap, 1024)?;
        let marks = vec![in heap; false; 1024]?;
        Ok(Explainer {
            scratch,
            forest,
            marks,
            todo,
            chosen,
        })
    }
}

impl<S: Keeper> Explainer<S> {
    // Takes the joins of the journal that are new to it.
    pub fn follow(&mut self, journal: &[Join])
        requires { length journal.now ≤ 1024 }
        ensures { followed self.new ≡ length journal.now }
    {
        self.forest.follow(journal);
    }

    // Forgets the joins from the place k on, which the journal loses.
    pub fn cut(&mut self, k: usize)
        ensures { followed self.new ≡ min (followed self.old) k }
    {
        self.forest.cut(k);
    }

    // Marks joins that join a and b, where the journal does: those of the guess if it is certified, else all.
    fn choose(&mut self, asked: &Question)
        requires { length asked.now.journal.now ≤ 1024 }
        ensures { Chosen (sheet asked.now.pictures.now) (reasons asked.now.journal.now) asked.now.a asked.now.b self.new.marks.items }
    {
        self.guess(asked);
        if !certify(&mut self.scratch, asked, &self.marks) {
            self.marks.fill(true);
        }
    }

    // Writes into the table a reason chain that joins the two pictures, made of joins of the journal, and answers its number of steps.
    pub fn explain(&mut self, table: &mut [Step], asked: &Question) -> u16
        requires room { length asked.now.journal.now ≤ length table.old }
        requires few { length asked.now.journal.now ≤ 1024 }
        ensures few { result ≤ length asked.now.journal.now }
        ensures rest { Rest result table.old table.new }
        ensures explained { Explained (sheet asked.now.pictures.now) (reasons asked.now.journal.now) asked.now.a asked.now.b result table.old table.new }
    {
        self.follow(asked.journal);
        self.choose(asked);
        gather(&mut self.chosen, asked.journal, &self.marks);
        write_chain(table, &self.chosen);
        self.chosen.len() as u16
    }
}
