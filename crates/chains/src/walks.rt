ghost use Rattle.std.specs.Prelude.{◌≡◌, ℕ, Bool, List, map, length};
ghost use Rattle.chains.specs.Chain.{Chain};
ghost use Rattle.chains.specs.Seek.{seek};
ghost use Rattle.chains.specs.Walk.{walk_of};

use super::fault::ChainFault;
use super::linked::Linked;

// A question about a record. A closure in its place would have to be required to be callable, and a clause could name only what each call of it
// gives, not the function that says which records pass.
pub trait Test<R> {
    ghost passes: { Self → R → Bool };

    // Whether the record passes.
    fn test(&self, r: &R) -> bool
        ensures { result ≡ passes self.now r.now };
}

// A cell of a chain, and the one before it, 0 where it is the first, as the rules number cells.
#[derive(Clone, Copy)]
pub struct Found {
    pub before: u16,
    pub cell: u16,
}

// Walks from head on, and looks at no more cells than there are. Answers the first cell whose record passes the test, or none where the chain ends
// before, or that it is broken: it leaves the table or does not end.
pub fn walk<R: Linked, T: Test<R>>(
    cells: &[R],
    head: u16,
    test: &T,
) -> Result<Option<Found>, ChainFault>
    ensures is { result ≡ walk_of (length cells.now) (map R.after cells.now) (map (T.passes test.now) cells.now) 0 head }
    ensures chain { (p : List ℕ) → Chain (map R.after cells.now) head p → result ≡ Ok (seek (map (T.passes test.now) cells.now) 0 p) }
{
    let mut before = 0;
    let mut cell = head;
    for _turn in 0..cells.len() {
        if cell == 0 {
            return Ok(None);
        }
        let Some(r) = cells.get(cell as usize - 1) else {
            return Err(ChainFault::Broken);
        };
        if test.test(r) {
            return Ok(Some(Found { before, cell }));
        }
        before = cell;
        cell = r.next();
    }
    if cell == 0 {
        Ok(None)
    } else {
        Err(ChainFault::Broken)
    }
}
