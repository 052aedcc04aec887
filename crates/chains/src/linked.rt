ghost use Rattle.std.specs.Prelude.{◌≡◌, ℕ};

// A record that has the number of the next cell of its chain, 0 where it is the last: the rules number cells from 1 and let 0 end a chain, since a host
// reads them.
pub trait Linked {
    // the number of the next cell
    ghost after: { Self → ℕ };

    // the record with another next, and otherwise as it was
    ghost led: { Self → ℕ → Self };

    // The number of the next cell.
    fn next(&self) -> u16
        ensures { result ≡ after self.now };

    // Gives the record another next.
    fn lead(&mut self, n: u16)
        ensures { self.new ≡ led self.old n };

    ghost leads: { (r : Self) (n : ℕ) → after (led r n) ≡ n };

    ghost kept: { (r : Self) → led r (after r) ≡ r };

    ghost again: { (r : Self) (m n : ℕ) → led (led r m) n ≡ led r n };
}
