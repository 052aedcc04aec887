use engines::{Added, Joined, SheetFault};

// What a call answers that is not refused.
#[derive(Clone, Copy, PartialEq, Eq, Debug)]
pub enum Answer {
    // to add: the picture's number, and the lowest number in its class
    Added(Added),
    // to same: the entry's number, and its joins
    Joined(Joined),
    // to differ: the entry's number
    Noted(u16),
    // to must: whether both pictures are in one class
    Told(bool),
    // to why: the number of steps of the chain that was written
    Explained(u16),
    // to lock and reopen: the sheet in its other state
    Turned,
    // to value and apply
    Valued(u16),
}

// What a call comes to.
pub type Reply = Result<Answer, SheetFault>;
