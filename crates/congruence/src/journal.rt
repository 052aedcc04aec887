// Why two classes were joined.
#[derive(Clone, Copy)]
pub enum Cause {
    // a `same` entry, by its number
    Entry(u16),
    // the two pictures are twins
    Twins,
}

// Two pictures whose classes were joined.
#[derive(Clone, Copy)]
pub struct Join {
    pub left: u16,
    pub right: u16,
    pub cause: Cause,
}
