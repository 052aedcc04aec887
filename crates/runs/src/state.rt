use engines::{Locked, Open};
use indexes::Index;
use keepers::Keeper;

// The sheet of a run, open or locked as it is. That it is whole stands in `WholeState`, and not in a ghost field, for the reason given at `Open`.
#[derive(Drop)]
pub(crate) enum State<K: Keeper, I: Index> {
    Opened(Open<K, I>),
    Closed(Locked<K, I>),
}
