ghost use Rattle.std.specs.Prelude.{◌≡◌, vec_len, length, string_bytes, IfOk};
ghost use Rattle.theory.specs.Calls.{empty};
ghost use Rattle.engines.specs.Content.{content};
ghost use Rattle.engines.specs.Whole.{Whole};
ghost use Rattle.printouts.specs.Form.{Takes};
ghost use Rattle.printouts.specs.Lines.{line_numbers};
ghost use Rattle.printouts.specs.Replies.{Did, Replies};
ghost use Rattle.printouts.specs.Printouts.{lines, Prints};

use crate::cut::cut_line;
use crate::fault::LineFault;
use crate::form::read_line;
use crate::line::Line;
use crate::reply::{Answer, say};
use engines::{Open, SheetFault, Step};
use indexes::Index;
use keepers::Keeper;
use std::alloc::{AllocError, Global};

// The cells of the step table.
const CELLS: usize = 1024;

// A sheet, and the step table that it is lent.
#[derive(Drop)]
pub(crate) struct Desk<K: Keeper, I: Index> {
    pub(crate) sheet: Open<K, I>,
    table: Vec<Step>,
    ghost cells: { vec_len table ≡ 1024 },
}

impl<K: Keeper + Drop, I: Index + Drop> Desk<K, I> {
    // A sheet that is put together from a keeper and an index, and a table.
    pub(crate) fn new(heap: Global, keeper: K, index: I) -> Result<Desk<K, I>, AllocError>
        ensures whole { IfOk result (λ d. Whole K.Keeper I.Index d.sheet) }
        ensures empty { IfOk result (λ d. content d.sheet ≡ empty) }
    {
        let sheet = Open::new(heap, keeper, index)?;
        let table = vec![in heap; Step::default(); CELLS]?;
        Ok(Desk { sheet, table })
    }
}

impl<K: Keeper, I: Index> Desk<K, I> {
    // The lines of the record: one for each line of the text.
    pub(crate) fn answer_lines(&mut self, heap: Global, text: &[u8]) -> Result<String, AllocError>
        requires { Whole K.Keeper I.Index self.old.sheet }
        ensures whole { Whole K.Keeper I.Index self.new.sheet }
        ensures prints { IfOk result (λ s. Prints (Did K.Keeper.limit) (content self.old.sheet) (lines text.now) (string_bytes s) (content self.new.sheet)) }
    {
        let mut out = String::new(heap);
        let mut rest = text;
        // Not a `for` over slice::split_inclusive: tried, and with type parameters here the prover takes no invariant over an iterator that holds a function.
        while !rest.is_empty() {
            let (line, next) = cut_line(rest);
            let reply = self.answer_line(line);
            say(&mut out, reply)?;
            rest = next;
        }
        Ok(out)
    }

    // Reads a line, and makes its call.
    fn answer_line(&mut self, text: &[u8]) -> Result<Answer, LineFault>
        requires { Whole K.Keeper I.Index self.old.sheet }
        ensures whole { Whole K.Keeper I.Index self.new.sheet }
        ensures replies { Replies (Did K.Keeper.limit) (content self.old.sheet) text.now result (content self.new.sheet) }
    {
        let line = read_line(text)?;
        Ok(self.make_call(&line)?)
    }

    // Makes the call that the letter names. Each arm has arguments and an answer of its own, so a match is plainer than a table of closures.
    fn make_call(&mut self, line: &Line) -> Result<Answer, SheetFault>
        requires whole { Whole K.Keeper I.Index self.old.sheet }
        requires takes { Takes line.now.letter (length (line_numbers line.now)) }
        ensures whole { Whole K.Keeper I.Index self.new.sheet }
        ensures did { Did K.Keeper.limit (content self.old.sheet) line.now.letter (line_numbers line.now) result (content self.new.sheet) }
    {
        let table = self.table.as_mut_slice();
        // The letter is matched, not an enum: a line promises its letter and its numbers as they were read, and an enum beside them would hold both twice.
        match (line.letter(), line.numbers()) {
            ('p', [operation, inputs @ ..]) => self
                .sheet
                .add(*operation, inputs)
                .map(Answer::Added),
            ('s', [a, b]) => self.sheet.same(table, *a, *b).map(Answer::Joined),
            ('d', [a, b]) => self.sheet.differ(table, *a, *b).map(Answer::Noted),
            ('m', [a, b]) => self.sheet.must(*a, *b).map(Answer::Told),
            _ => unreachable!(),
        }
    }
}
