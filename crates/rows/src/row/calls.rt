ghost use Rattle.std.specs.Prelude.{◌≡◌, ◌<◌, ◌≤◌, [], ◌∷◌, ◌++◌, length, is_ok, if◌then◌else◌, nat_lt, MatchOption};
ghost use Rattle.std.specs.Fn.{FnOnceReturnsAtMut};
ghost use Rattle.rows.specs.Row.{cells_of};

use super::{Row, RowFull};

impl<const N: usize> Row<N> {
    // The row of no number.
    pub fn none() -> Row<N>
        ensures { cells_of result ≡ [] }
    {
        Row {
            cells: [0; N],
            len: 0,
        }
    }

    // The row of these numbers, unless they are more than N.
    pub fn new(numbers: &[u16]) -> Option<Row<N>>
        ensures { MatchOption result (N < length numbers.now) (λ w. (cells_of w ≡ numbers.now) × (length numbers.now ≤ N)) }
    {
        let len = numbers.len();
        if len > N {
            return None;
        }
        let mut cells = [0u16; N];
        cells[..len].copy_from_slice(numbers);
        Some(Row { cells, len })
    }

    // Its numbers.
    pub fn as_slice(&self) -> &[u16]
        ensures value { result.now ≡ cells_of self.now }
        ensures short { length result.now ≤ N }
    {
        &self.cells[..self.len]
    }

    // How many numbers it has.
    pub fn len(&self) -> usize
        ensures value { result ≡ length (cells_of self.now) }
        ensures short { result ≤ N }
    {
        self.as_slice().len()
    }

    // Puts a number behind the others. Refused, and leaves the row as it is, where it has N of them.
    pub fn push(&mut self, x: u16) -> Result<(), RowFull>
        ensures answer { is_ok result ≡ nat_lt (length (cells_of self.old)) N }
        ensures after { cells_of self.new ≡ (if is_ok result then cells_of self.old ++ x ∷ [] else cells_of self.old) }
    {
        if self.len == N {
            return Err(RowFull);
        }
        self.cells[self.len] = x;
        self.len += 1;
        Ok(())
    }

    // Lets a function write its numbers: what it leaves in the slice are the numbers afterwards.
    // A method that lends the slice itself would need a clause on a loan of a part of an array, which is not proved.
    pub fn change<F: FnOnce(&mut [u16])>(&mut self, f: F)
        requires { F.IsAlwaysCallable f }
        ensures { FnOnceReturnsAtMut F.FnOnce f (cells_of self.old) tt (cells_of self.new) }
    {
        f(&mut self.cells[..self.len]);
    }
}
