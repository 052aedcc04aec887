ghost use Rattle.std.specs.Prelude.{◌≡◌, ◌+◌, ◌<◌, ◌≤◌, min, length, IfOk, vec_len};

use crate::forest::{Bridge, Forest, Trees};
use congruence::Join;
use std::alloc::{AllocError, Global};

impl Forest {
    // A forest of no join. Takes its whole memory here.
    pub fn new(heap: Global) -> Result<Forest, AllocError>
        ensures { IfOk result (λ f. vec_len f.hung ≡ 0) }
    {
        let hung = Vec::with_capacity(heap, 1024)?;
        let trees = Trees::new(heap)?;
        Ok(Forest { trees, hung })
    }

    // Takes the joins from the place k on back, the last first.
    pub fn cut(&mut self, k: usize)
        ensures { vec_len self.new.hung ≡ min (vec_len self.old.hung) k }
    {
        while self.hung.len() > k {
            if let Some(picture) = self.hung.pop() {
                self.trees.release(picture, self.hung.len());
            }
        }
    }

    // Takes the next join of the journal.
    fn take(&mut self, join: &Join)
        requires { vec_len self.old.hung < 1024 }
        ensures { vec_len self.new.hung ≡ vec_len self.old.hung + 1 }
    {
        let place = self.hung.len() as u16;
        let picture = self.trees.graft(join, place);
        self.hung.push_reserved(picture);
    }

    // Takes the joins of the journal that are missing.
    pub fn follow(&mut self, journal: &[Join])
        requires { length journal.now ≤ 1024 }
        ensures { vec_len self.new.hung ≡ length journal.now }
    {
        self.cut(journal.len());
        for join in &journal[self.hung.len()..] {
            self.take(join);
        }
    }

    // The last join that put two pictures together, as seen from the first; none where no join did.
    pub fn last_join(&self, x: u16, y: u16) -> Option<Bridge> {
        self.trees.last_join(x, y)
    }
}
