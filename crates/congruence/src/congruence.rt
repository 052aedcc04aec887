use crate::journal::Join;
use crate::picture::Picture;
use indexes::Index;
use keepers::Keeper;

// Pictures, and the classes that their joins force. The classes are the keeper's; the index leads from the signatures of the pictures to pictures that
// bear them; the journal has the joins that made the classes, in order. What ties them to one another stands in the records `Holds` and `Works`, and not
// in ghost fields: in a struct that owns memory they cannot name what a bound's trait says. For the same
// reason it is clauses that say that the keeper has a picture (`Within`) and that the index leads to pictures of the sheet only (`Inward`).
#[derive(Drop)]
pub struct Congruence<K: Keeper, I: Index> {
    pub keeper: K,
    pub index: I,
    pub pictures: Vec<Picture>,
    pub journal: Vec<Join>,
}

// what it is put together from, and one picture more
pub mod making;
// what is asked of it
pub mod asking;
// its classes changed
pub mod changing;
