// A class keeper for sixteen pictures that lies in one array: an example of a keeper of your own. Its calls are written out, though those of `Relabel` are
// like them, so that an example of a keeper shows every call; one that is generic over the array and the Vec would be no plainer.
#![tactic(auto)]

ghost use Rattle.std.specs.Prelude.{◌≡◌, []};
ghost use Rattle.keepers.specs.Meaning.{Settled};
ghost use Rattle.std.proofs.Common.{rules};

use arrayvec::ArrayVec;
use keepers::relabel::{label_of, relabel_row};
use keepers::{Keeper, KeeperFault, Outcome};

// labels[p - 1] is the representative of picture p.
#[derive(Drop)]
pub struct Small {
    labels: ArrayVec<u16, 16>,
    ghost settled: { Settled labels.items },
}

impl Small {
    // A keeper with no picture.
    pub fn new() -> Small
        ensures { result.labels.items ≡ [] }
    {
        Small {
            labels: ArrayVec::new(),
        }
    }
}

impl Keeper for Small {
    ghost limit = { 16 };

    ghost reps = { λ k. k.labels.items };

    ghost range = { Prim.search rules };

    ghost settled = { λ k. k.settled };

    fn capacity() -> u16 {
        16
    }

    fn reset(&mut self) {
        self.labels.clear();
    }

    fn grow(&mut self) -> Result<u16, KeeperFault> {
        if self.labels.is_full() {
            return Err(KeeperFault::Full);
        }
        let p = self.labels.len() as u16 + 1;
        self.labels.push(p);
        Ok(p)
    }

    fn find(&mut self, p: u16) -> Result<u16, KeeperFault> {
        label_of(&self.labels, p)
    }

    fn join(&mut self, p: u16, q: u16) -> Result<Outcome, KeeperFault> {
        let heir = self.find(p)?;
        let lost = self.find(q)?;
        if heir == lost {
            return Ok(Outcome::Already);
        }
        relabel_row(&mut self.labels, lost, heir);
        Ok(Outcome::Merged)
    }
}
