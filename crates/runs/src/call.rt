// A call with its arguments. Of the step table that is lent to the run it takes the first `cells` cells, or all if there are fewer.
#[derive(Drop)]
pub enum Call {
    Add { op: u16, inputs: Vec<u16> },
    Same { a: u16, b: u16, cells: usize },
    Differ { a: u16, b: u16, cells: usize },
    Must { a: u16, b: u16 },
    Why { a: u16, b: u16, cells: usize },
    Lock,
    Reopen,
    Value { p: u16 },
    Apply { op: u16, numbers: Vec<u16> },
}
