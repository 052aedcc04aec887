// The keeper that follows parent links and shortens them on the way.
ghost use Rattle.std.specs.Prelude.{◌≡◌, ℕ, ◌+◌, ◌<◌, ◌≤◌, ◌≢◌, true, [], map, length, ◌↔◌, IfOk, vec_len, vec_capacity};
ghost use Rattle.keepers.specs.Meaning.{Upto, moved, Did};
ghost use Rattle.keepers.specs.Links.{parent, root, roots, pictures, Table};
ghost use Rattle.keepers.specs.Roots.{settled_roots};
ghost use Rattle.keepers.specs.Linking.{bounded};
ghost use Rattle.std.proofs.Common.{rules};

use crate::keeper::{Keeper, KeeperFault, Outcome};
use crate::link::Link;
use std::alloc::{AllocError, Global};

// links[p] is the link of picture p; links[0] is no picture's. No call allocates, so links are numbers and not boxes.
#[derive(Drop)]
pub struct Links {
    links: Vec<Link>,
    ghost room: { 1025 ≤ vec_capacity links },
    ghost few: { vec_len links ≤ 1025 },
    ghost table: { Table (pictures links.items) links.items },
}

impl Links {
    // A keeper with no picture. Takes its whole memory here.
    pub fn new(heap: Global) -> Result<Self, AllocError>
        ensures { IfOk result (λ k. pictures k.links.items ≡ 0) }
    {
        let mut links = Vec::with_capacity(heap, 1025)?;
        links.push_reserved(Link { parent: 0, rank: 0 });
        Ok(Links { links })
    }

    // The number of pictures.
    fn count(&self) -> usize
        ensures { result ≡ pictures self.now.links.items }
    {
        self.links.len() - 1
    }

    // Whether p is one of the pictures.
    fn has(&self, p: u16) -> bool
        ensures { (result ≡ true) ↔ Upto (pictures self.now.links.items) p }
    {
        0 < p && p as usize <= self.count()
    }

    // The end of the links from p. Each second picture on the way then skips one link (path halving).
    fn halve(&mut self, p: u16) -> u16
        requires on { Upto (pictures self.old.links.items) p }
        ensures answer { result ≡ root (pictures self.old.links.items) self.old.links.items p }
        ensures same { roots (pictures self.new.links.items) self.new.links.items ≡ roots (pictures self.old.links.items) self.old.links.items }
    {
        let mut x = p;
        loop {
            let up = self.links[x as usize].parent;
            if up == x {
                return x;
            }
            let next = self.links[up as usize].parent;
            self.links[x as usize].parent = next;
            x = next;
        }
    }

    // Links the root `lost` to the root `heir`, whose rank is then above its.
    fn link(&mut self, heir: u16, lost: u16)
        requires on { Upto (pictures self.old.links.items) heir × Upto (pictures self.old.links.items) lost }
        requires ends { (parent self.old.links.items heir ≡ heir) × (parent self.old.links.items lost ≡ lost) }
        requires apart { heir ≢ lost }
        ensures moves { roots (pictures self.new.links.items) self.new.links.items ≡ map (moved lost heir) (roots (pictures self.old.links.items) self.old.links.items) }
    {
        let above = self.links[lost as usize].rank + 1;
        if self.links[heir as usize].rank < above {
            self.links[heir as usize].rank = above;
        }
        self.links[lost as usize].parent = heir;
    }

    // Links the roots of two pictures, unless they are one: the root of lower rank to the other, so that paths stay short.
    fn unite(&mut self, p: u16, q: u16) -> Outcome
        requires on { Upto (pictures self.old.links.items) p × Upto (pictures self.old.links.items) q }
        ensures did { Did p q (roots (pictures self.old.links.items) self.old.links.items) (roots (pictures self.new.links.items) self.new.links.items) result }
    {
        let a = self.halve(p);
        let b = self.halve(q);
        if a == b {
            return Outcome::Already;
        }
        if self.links[a as usize].rank < self.links[b as usize].rank {
            self.link(b, a);
        } else {
            self.link(a, b);
        }
        Outcome::Merged
    }
}

impl Keeper for Links {
    ghost limit = { 1024 };

    ghost reps = { λ k. roots (pictures k.links.items) k.links.items };

    ghost range = { Prim.search rules };

    ghost settled = { λ k. settled_roots (pictures k.links.items) k.links.items k.table.rising (bounded (pictures k.links.items) k.links.items k.table.low) };

    fn capacity() -> u16 {
        1024
    }

    fn reset(&mut self) {
        self.links.truncate(1);
    }

    fn grow(&mut self) -> Result<u16, KeeperFault> {
        if self.count() == 1024 {
            return Err(KeeperFault::Full);
        }
        let p = self.count() as u16 + 1;
        self.links.push_reserved(Link { parent: p, rank: 0 });
        Ok(p)
    }

    fn find(&mut self, p: u16) -> Result<u16, KeeperFault> {
        if !self.has(p) {
            return Err(KeeperFault::NoPicture);
        }
        Ok(self.halve(p))
    }

    fn join(&mut self, p: u16, q: u16) -> Result<Outcome, KeeperFault> {
        if !self.has(p) || !self.has(q) {
            return Err(KeeperFault::NoPicture);
        }
        Ok(self.unite(p, q))
    }
}
