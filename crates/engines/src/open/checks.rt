ghost use Rattle.std.specs.Prelude.{◌≡◌, ℕ, ◌+◌, ◌<◌, ◌≤◌, length, MatchResult};
ghost use Rattle.engines.specs.declared.fault.SheetFault.TheVariants.{NoPicture};
ghost use Rattle.engines.specs.Checks.{absent, any_absent, Both, Stopped, Passed};

use crate::fault::SheetFault;

// Whether p is no picture of n.
pub fn missing(n: usize, p: u16) -> bool
    ensures { result ≡ absent n p }
{
    p == 0 || n < p as usize
}

// Whether one of the row is no picture of n.
pub fn any_missing(n: usize, row: &[u16]) -> bool
    ensures { result ≡ any_absent n row.now }
{
    row.iter().any(|p| missing(n, *p))
}

// The check of two picture numbers.
pub fn check_pair(n: usize, a: u16, b: u16) -> Result<(), SheetFault>
    ensures { MatchResult result (λ _. Both n a b) (λ e. (e ≡ NoPicture) × (¬ Both n a b)) }
{
    if missing(n, a) || missing(n, b) {
        return Err(SheetFault::NoPicture);
    }
    Ok(())
}

// The checks of an entry before the one for a contradiction, on a sheet of n pictures and so many entries taken. Answers the number it would have. The numbers
// are given one by one: the clauses of a method would name the same numbers through the sheet, and be no plainer.
pub fn check_entry(cells: usize, n: usize, taken: usize, a: u16, b: u16) -> Result<u16, SheetFault>
    ensures { MatchResult result (λ k. (k ≡ taken + 1) × Passed cells n taken a b) (λ e. Stopped cells n taken a b e) }
{
    if cells < 1024 {
        return Err(SheetFault::FewCells);
    }
    check_pair(n, a, b)?;
    if taken >= 2048 {
        return Err(SheetFault::Full);
    }
    Ok(taken as u16 + 1)
}
