ghost use Rattle.std.specs.Prelude.{◌≡◌, length, IfOk};
ghost use Rattle.theory.specs.Calls.{empty};
ghost use Rattle.engines.specs.Content.{content, pictures_on, entries_on};
ghost use Rattle.engines.specs.Whole.{Whole};

use crate::open::Open;
use congruence::Congruence;
use indexes::Index;
use keepers::{Keeper, Links};
use reasons::Explainer;
use std::alloc::{AllocError, Global};

impl<K: Keeper + Drop, I: Index + Drop> Open<K, I> {
    // A sheet put together from a keeper and an index, both reset first.
    pub fn new(heap: Global, keeper: K, index: I) -> Result<Open<K, I>, AllocError>
        ensures whole { IfOk result (λ o. Whole K.Keeper I.Index o) }
        ensures empty { IfOk result (λ o. content o ≡ empty) }
    {
        let congruence = Congruence::new(heap, keeper, index)?;
        let entries = Vec::with_capacity(heap, 2048)?;
        let explainer = Explainer::new(heap, Links::new(heap)?)?;
        Ok(Open {
            congruence,
            entries,
            explainer,
        })
    }
}

impl<K: Keeper, I: Index> Open<K, I> {
    // The number of pictures on the sheet.
    pub(super) fn picture_count(&self) -> usize
        ensures { result ≡ length (pictures_on self.now) }
    {
        self.congruence.pictures().len()
    }

    // The number of entries that it has taken.
    pub(super) fn entry_count(&self) -> usize
        ensures { result ≡ length (entries_on self.now) }
    {
        self.entries.len()
    }
}
