ghost use Rattle.std.specs.Prelude.{◌≡◌};
ghost use Rattle.reasons.specs.Table.{cell_of};
ghost use Rattle.std.proofs.Common.{refl};

use chains::Linked;
use congruence::{Cause, Join};

// A cell of the host's step table. Cells are numbered from 1, and next is the cell of the next step, 0 at the last. The rules fix the kinds 1 and 2,
// and the 0 at the last, as numbers, since a host reads them.
#[derive(Clone, Copy, PartialEq, Eq, Debug, Default)]
pub struct Step {
    pub kind: u8,
    pub left: u16,
    pub right: u16,
    pub entry: u16,
    pub next: u16,
}

// The step that a join is, the last of its chain.
impl From<Join> for Step {
    ghost from_gives = { λ j s. s ≡ cell_of j 0 };

    fn from(join: Join) -> Step {
        let Join { left, right, cause } = join;
        let (kind, entry) = match cause {
            Cause::Entry(entry) => (1, entry),
            Cause::Twins => (2, 0),
        };
        Step {
            kind,
            left,
            right,
            entry,
            next: 0,
        }
    }
}

impl Linked for Step {
    ghost after = { λ s. s.next };

    ghost led = { λ s n. record { kind = s.kind; left = s.left; right = s.right; entry = s.entry; next = n } };

    ghost leads = { λ r n. refl };

    ghost kept = { λ r. refl };

    ghost again = { λ r m n. refl };

    fn next(&self) -> u16 {
        self.next
    }

    fn lead(&mut self, n: u16) {
        self.next = n;
    }
}
