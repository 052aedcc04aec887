ghost use Rattle.std.specs.Prelude.{◌≡◌, [], ◌∷◌, ◌++◌, Some, string_bytes, OnOk};
ghost use Rattle.printouts.specs.Replies.{answer_text, reply_text};

use crate::fault::LineFault;
use engines::{Added, Joined};
use std::alloc::AllocError;
use std::fmt;

// What the call of a line answers. A list makes four calls, so this has four of the seven answers that a run can have: with all seven, three arms would
// stand for what cannot be.
#[derive(Clone, Copy, PartialEq, Eq, Debug)]
pub enum Answer {
    // to p: the picture's number, and the lowest number in its class
    Added(Added),
    // to s: the entry's number, and its joins
    Joined(Joined),
    // to d: the entry's number
    Noted(u16),
    // to m: whether both pictures are in one class
    Told(bool),
}

impl fmt::Display for Answer {
    ghost output = { λ a. Some (answer_text a) };

    fn fmt<W: fmt::Write>(&self, f: &mut fmt::Formatter<W>) -> fmt::Result {
        match *self {
            Answer::Added(Added { number, lowest }) => write!(f, "p {number} {lowest}"),
            Answer::Joined(Joined { entry, joins }) => write!(f, "s {entry} {joins}"),
            Answer::Noted(entry) => write!(f, "d {entry}"),
            Answer::Told(true) => write!(f, "m yes"),
            Answer::Told(false) => write!(f, "m no"),
        }
    }
}

// Adds the line of a reply.
pub(crate) fn say(out: &mut String, reply: Result<Answer, LineFault>) -> Result<(), AllocError>
    ensures { OnOk result (string_bytes out.new ≡ string_bytes out.old ++ (reply_text reply ++ (10 ∷ []))) }
{
    match reply {
        Ok(answer) => writeln!(out, "{answer}"),
        Err(fault) => writeln!(out, "{fault}"),
    }
}
