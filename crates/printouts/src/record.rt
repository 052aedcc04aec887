ghost use Rattle.std.specs.Prelude.{string_bytes, IfOk};
ghost use Rattle.printouts.specs.Printouts.{Printout, OneRecord};

use crate::desk::Desk;
use indexes::Index;
use keepers::Keeper;
use std::alloc::{AllocError, Global};
use std::fmt::Write;

// The longest text, in bytes.
const LONGEST: usize = 65536;

// The record of a list, made on a sheet that is put together from a keeper and an index: a line for each line of the text, and the number of classes.
pub fn print_record<K: Keeper + Drop, I: Index + Drop>(
    heap: Global,
    keeper: K,
    index: I,
    text: &[u8],
) -> Result<String, AllocError>
    ensures { IfOk result (λ s. Printout K.Keeper.limit text.now (string_bytes s)) }
{
    // The rules fix this record; it is no fault of a line, so no variant of `LineFault` prints it.
    if text.len() > LONGEST {
        return String::from_str(heap, "no 9 0\n");
    }
    let mut desk = Desk::new(heap, keeper, index)?;
    let mut out = desk.answer_lines(heap, text)?;
    let classes = desk.sheet.classes();
    writeln!(out, "classes {classes}")?;
    Ok(out)
}

// A text has at most one record, for each capacity of the keeper: the definitions leave no byte of it free.
pub fn a_text_has_one_record()
    ensures { OneRecord }
{}
