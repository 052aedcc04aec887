use rows::Row;

// A line that was read. The letter is a char and no enum: a line promises its letter and its numbers as they were read.
#[derive(Clone, Copy)]
pub struct Line {
    pub(crate) letter: char,
    pub(crate) numbers: Row<9>,
}

pub mod calls;
