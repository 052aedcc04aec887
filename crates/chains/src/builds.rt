ghost use Rattle.std.specs.Prelude.{◌≡◌, ℕ, List, [], ◌∷◌, ◌++◌, map, length, is_ok, IfOk, if◌then◌else◌, MatchResult, nat_le};
ghost use Rattle.std.specs.List.{range_with_len};
ghost use Rattle.chains.specs.Chain.{Chain, Clear, last_or};
ghost use Rattle.chains.specs.Build.{is_cell, with_next, appended, unlinked, answered, append_answer, unlink_answer};
ghost use Rattle.chains.specs.Thread.{first_of, Threaded};

use super::fault::ChainFault;
use super::linked::Linked;
use super::walks::Found;

// Whether the table has a cell of this number.
fn has<R: Linked>(cells: &[R], cell: u16) -> bool
    ensures { result ≡ is_cell (length cells.now) cell }
{
    cell != 0 && cell as usize <= cells.len()
}

// Gives a cell another next. Leaves everything where there is no such cell.
fn link<R: Linked>(cells: &mut [R], cell: u16, next: u16)
    ensures { cells.new ≡ with_next R.led cells.old cell next }
{
    if has(cells, cell) {
        cells[cell as usize - 1].lead(next);
    }
}

// Puts a cell in front of a chain, and answers the chain's new head.
pub fn push<R: Linked>(cells: &mut [R], head: u16, cell: u16) -> Result<u16, ChainFault>
    ensures answer { result ≡ answered (is_cell (length cells.old) cell) cell }
    ensures records { cells.new ≡ with_next R.led cells.old cell head }
    ensures chain { (p : List ℕ) → Chain (map R.after cells.old) head p → Clear cell p → IfOk result (λ h. Chain (map R.after cells.new) h (cell ∷ p)) }
{
    if !has(cells, cell) {
        return Err(ChainFault::Outside);
    }
    link(cells, cell, head);
    Ok(cell)
}

// Puts a cell behind the last one of a chain, 0 where the chain is empty, and answers the chain's head.
pub fn append<R: Linked>(
    cells: &mut [R],
    head: u16,
    last: u16,
    cell: u16,
) -> Result<u16, ChainFault>
    ensures answer { result ≡ append_answer (length cells.old) head last cell }
    ensures records { cells.new ≡ (if is_ok result then appended R.led cells.old last cell else cells.old) }
    ensures chain { (p : List ℕ) → Chain (map R.after cells.old) head p → last ≡ last_or 0 p → Clear cell p → IfOk result (λ h. Chain (map R.after cells.new) h (p ++ cell ∷ [])) }
{
    if !has(cells, cell) || last as usize > cells.len() {
        return Err(ChainFault::Outside);
    }
    link(cells, cell, 0);
    link(cells, last, cell);
    if last == 0 { Ok(cell) } else { Ok(head) }
}

// Takes a cell out of its chain, and answers the chain's new head. The cell itself is left as it is.
pub fn unlink<R: Linked>(cells: &mut [R], head: u16, at: Found) -> Result<u16, ChainFault>
    ensures answer { result ≡ unlink_answer (length cells.old) (map R.after cells.old) head at }
    ensures records { cells.new ≡ (if is_ok result then unlinked R.after R.led cells.old at else cells.old) }
    ensures chain { (front rest : List ℕ) → Chain (map R.after cells.old) head (front ++ at.cell ∷ rest) → at.before ≡ last_or 0 front → MatchResult result (λ h. Chain (map R.after cells.new) h (front ++ rest)) (λ _. ⊥) }
{
    if !has(cells, at.cell) || at.before as usize > cells.len() {
        return Err(ChainFault::Outside);
    }
    let next = cells[at.cell as usize - 1].next();
    link(cells, at.before, next);
    if at.before == 0 { Ok(next) } else { Ok(head) }
}

// Chains the cells 1 to m in their order, and answers the chain's head.
pub fn thread<R: Linked>(cells: &mut [R], m: u16) -> Result<u16, ChainFault>
    ensures answer { result ≡ answered (nat_le m (length cells.old)) (first_of m) }
    ensures records { Threaded R.led m (if is_ok result then m else 0) cells.old cells.new }
    ensures chain { IfOk result (λ h. Chain (map R.after cells.new) h (range_with_len 1 m)) }
{
    if m as usize > cells.len() {
        return Err(ChainFault::Outside);
    }
    for (i, cell) in cells[..m as usize].iter_mut().enumerate() {
        let next = if i + 1 < m as usize { i as u16 + 2 } else { 0 };
        cell.lead(next);
    }
    if m == 0 { Ok(0) } else { Ok(1) }
}
