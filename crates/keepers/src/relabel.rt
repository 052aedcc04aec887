// The keeper that writes each picture's representative into a table, and at a join relabels each member of one class.
ghost use Rattle.std.specs.Prelude.{◌≡◌, ℕ, ◌<◌, ◌≤◌, [], map, IfOk, vec_len, vec_capacity};
ghost use Rattle.keepers.specs.Meaning.{Settled, Found, moved};
ghost use Rattle.std.proofs.Common.{rules};

use crate::keeper::{Keeper, KeeperFault, Outcome};
use std::alloc::{AllocError, Global};

// labels[p - 1] is the representative of picture p.
#[derive(Drop)]
pub struct Relabel {
    labels: Vec<u16>,
    ghost room: { 1024 ≤ vec_capacity labels },
    ghost few: { vec_len labels ≤ 1024 },
    ghost settled: { Settled labels.items },
}

// The representative of a picture, from a row with those of 1, 2, 3 and so on: what a find answers where they stand in a table.
pub fn label_of(labels: &[u16], p: u16) -> Result<u16, KeeperFault>
    ensures { Found p labels.now result }
{
    (p as usize)
        .checked_sub(1)
        .and_then(|i| labels.get(i))
        .copied()
        .ok_or(KeeperFault::NoPicture)
}

// Every label `lost` of a row becomes `heir`: what a join does to representatives that stand in a table.
pub fn relabel_row(labels: &mut [u16], lost: u16, heir: u16)
    ensures { labels.new ≡ map (moved lost heir) labels.old }
{
    for x in labels {
        if *x == lost {
            *x = heir;
        }
    }
}

impl Relabel {
    // A keeper with no picture. Takes its whole memory here.
    pub fn new(heap: Global) -> Result<Self, AllocError>
        ensures { IfOk result (λ k. k.labels.items ≡ []) }
    {
        let labels = Vec::with_capacity(heap, 1024)?;
        Ok(Relabel { labels })
    }
}

impl Keeper for Relabel {
    ghost limit = { 1024 };

    ghost reps = { λ k. k.labels.items };

    ghost range = { Prim.search rules };

    ghost settled = { λ k. k.settled };

    fn capacity() -> u16 {
        1024
    }

    fn reset(&mut self) {
        self.labels.clear();
    }

    fn grow(&mut self) -> Result<u16, KeeperFault> {
        if self.labels.len() == 1024 {
            return Err(KeeperFault::Full);
        }
        let p = self.labels.len() as u16 + 1;
        self.labels.push_reserved(p);
        Ok(p)
    }

    fn find(&mut self, p: u16) -> Result<u16, KeeperFault> {
        label_of(&self.labels, p)
    }

    fn join(&mut self, p: u16, q: u16) -> Result<Outcome, KeeperFault> {
        let heir = self.find(p)?;
        let lost = self.find(q)?;
        if heir == lost {
            return Ok(Outcome::Already);
        }
        relabel_row(&mut self.labels, lost, heir);
        Ok(Outcome::Merged)
    }
}
