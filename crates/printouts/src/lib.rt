// Lists: a text of lines, each of which asks for a call on a sheet, and the record of what the calls answer.
#![tactic(auto)]

// how a line is refused
pub mod fault;
// a line that was read: its letter and its numbers
pub mod line;
// reads a number
mod number;
// reads a line
pub mod form;
// what a line is answered, and how that is printed
pub mod reply;
// takes the first line off a text
mod cut;
// a sheet and its step table: makes the calls that lines ask for
mod desk;
// prints the record of a text
pub mod record;

pub use fault::{LineFault, NumberFault};
pub use form::{a_line_has_one_reading, read_line};
pub use line::Line;
pub use record::{a_text_has_one_record, print_record};
pub use reply::Answer;
