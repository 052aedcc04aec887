// What add answers: the number of the new picture, and the lowest number in its class.
#[derive(Clone, Copy, PartialEq, Eq, Debug)]
pub struct Added {
    pub number: u16,
    pub lowest: u16,
}

// What same answers: the number of the entry, and its joins, which are the classes before less the classes after.
#[derive(Clone, Copy, PartialEq, Eq, Debug)]
pub struct Joined {
    pub entry: u16,
    pub joins: u16,
}
