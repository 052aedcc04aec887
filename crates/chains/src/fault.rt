// Why a call that builds a chain is refused, or what a walk finds wrong with one. A refused call changes nothing.
#[derive(Clone, Copy, PartialEq, Eq, Debug)]
pub enum ChainFault {
    // a cell is not in the table
    Outside,
    // the chain leaves the table or does not end
    Broken,
}
