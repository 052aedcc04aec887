use engines::Step;

// What every cell of a table holds before the calls. No step has this kind. It is no `Step::default()`, as which a cell
// that a call cleared would pass for one left alone.
const MARK: Step = Step {
    kind: 99,
    left: 0,
    right: 0,
    entry: 0,
    next: 0,
};

// A table of so many cells, each with the mark.
pub(crate) fn mark_cells(rt: &HostRuntime, cells: usize) -> anyhow::Result<Vec<Step>> {
    Ok(vec![in rt.alloc(); MARK; cells]?)
}

// Prints the cells of a chain in the order of its steps, and how many of the other cells lost their mark.
pub(crate) fn show_chain(rt: &HostRuntime, table: &[Step], steps: u16) -> anyhow::Result<()> {
    let mut cell = 1;
    for _ in 0..steps {
        cell = show_cell(rt, table, cell)?;
    }
    let others = table.len().saturating_sub(steps as usize);
    let changed = count_changed(table, steps as usize);
    println!(rt; "  other cells: {others}, of them changed: {changed}")?;
    Ok(())
}

// Prints a cell of a chain. Answers the next.
fn show_cell(rt: &HostRuntime, table: &[Step], cell: u16) -> anyhow::Result<u16> {
    let place = (cell as usize).wrapping_sub(1);
    let Some(step) = table.get(place) else {
        println!(rt; "  cell {cell}: not in the table")?;
        return Ok(0);
    };
    println!(rt;
        "  cell {cell}: kind {}, left {}, right {}, entry {}, next {}",
        step.kind, step.left, step.right, step.entry, step.next
    )?;
    Ok(step.next)
}

// How many cells behind the first ones do not hold the mark.
fn count_changed(table: &[Step], first: usize) -> usize {
    table
        .iter()
        .skip(first)
        .filter(|cell| **cell != MARK)
        .count()
}
