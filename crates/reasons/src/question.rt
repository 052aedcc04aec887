use congruence::{Join, Picture};

// Two pictures of a sheet, and the journal of its joins, which is to tell why they are in one class.
#[derive(Clone, Copy)]
pub struct Question<'a> {
    pub pictures: &'a [Picture],
    pub journal: &'a [Join],
    pub a: u16,
    pub b: u16,
}
