// Shows the step table of a sheet: how many cells it needs, which cells a reason chain is written into, and which calls are refused with which number.
// Which of the possible steps a chain has is not fixed by the rules.
#![tactic(auto)]

ghost use Rattle.std.specs.Prelude.{IfOk};
ghost use Rattle.engines.specs.Whole.{Whole};

use crate::calls::Printed;
use crate::cells::{mark_cells, show_chain};
use indexes::{Chained, Index, Plain};
use keepers::{Keeper, Links, Relabel};

// the calls of a sheet, each with a line that says what it answers
mod calls;
// the cells of step tables
mod cells;

fn main(rt: HostRuntime) -> anyhow::Result<()> {
    println!(rt; "=== parent links and the chained index")?;
    show_cells_needed(linked(&rt)?)?;
    show_last_picture(linked(&rt)?)?;
    show_last_entry(linked(&rt)?)?;
    show_refusals(linked(&rt)?)?;
    show_twins(linked(&rt)?)?;
    show_broken_entry(linked(&rt)?)?;
    println!(rt; "=== relabelling and the plain list")?;
    show_refusals(relabelled(&rt)?)?;
    show_broken_entry(relabelled(&rt)?)
}

// A sheet of parent links and the chained index.
fn linked(rt: &HostRuntime) -> anyhow::Result<Printed<'_, Links, Chained>>
    ensures { IfOk result (λ p. Whole ⟦<Links as Keeper>⟧ ⟦<Chained as Index>⟧ p.sheet) }
{
    let heap = rt.alloc();
    Printed::new(rt, Links::new(heap)?, Chained::new(heap)?)
}

// A sheet of relabelling and the plain list.
fn relabelled(rt: &HostRuntime) -> anyhow::Result<Printed<'_, Relabel, Plain>>
    ensures { IfOk result (λ p. Whole ⟦<Relabel as Keeper>⟧ ⟦<Plain as Index>⟧ p.sheet) }
{
    let heap = rt.alloc();
    Printed::new(rt, Relabel::new(heap)?, Plain::new(heap)?)
}

// A table of 1,024 cells is enough. One of 1,023 is refused before every other check.
fn show_cells_needed<K: Keeper + Drop, I: Index + Drop>(
    mut host: Printed<K, I>,
) -> anyhow::Result<()>
    requires { Whole K.Keeper I.Index host.sheet }
{
    println!(host.rt; "== 1,023 cells are refused before every other check, and 1,024 pass")?;
    let mut short = mark_cells(host.rt, 1023)?;
    let mut enough = mark_cells(host.rt, 1024)?;
    host.add(1, &[])?;
    host.add(2, &[])?;
    host.same(short.as_mut_slice(), 1, 1)?;
    host.differ(short.as_mut_slice(), 1, 2)?;
    host.why(short.as_mut_slice(), 1, 1)?;
    host.same(short.as_mut_slice(), 0, 3)?;
    host.differ(short.as_mut_slice(), 1, 1)?;
    host.why(short.as_mut_slice(), 1, 2)?;
    show_chain(host.rt, short.as_slice(), 0)?;
    host.same(enough.as_mut_slice(), 1, 1)?;
    host.differ(enough.as_mut_slice(), 1, 2)?;
    host.why(enough.as_mut_slice(), 1, 1)?;
    Ok(())
}

// Picture 1,024 is added, and none after it.
fn show_last_picture<K: Keeper + Drop, I: Index + Drop>(
    mut host: Printed<K, I>,
) -> anyhow::Result<()>
    requires { Whole K.Keeper I.Index host.sheet }
{
    println!(host.rt; "== the last picture, after add 1 [] was called 1,023 times")?;
    host.fill_pictures(1023);
    host.add(1, &[])?;
    host.add(1, &[])?;
    host.add(1, &[1025])
}

// Entry 2,048 is taken, and none after it.
fn show_last_entry<K: Keeper + Drop, I: Index + Drop>(mut host: Printed<K, I>) -> anyhow::Result<()>
    requires { Whole K.Keeper I.Index host.sheet }
{
    println!(host.rt;
        "== the last entry, after add 1 [] and then same 1 1 was called 2,047 times"
    )?;
    let mut table = mark_cells(host.rt, 1024)?;
    host.fill_pictures(1);
    host.fill_entries(table.as_mut_slice(), 2047);
    host.same(table.as_mut_slice(), 1, 1)?;
    host.differ(table.as_mut_slice(), 1, 1)?;
    host.same(table.as_mut_slice(), 1, 2)?;
    Ok(())
}

// Every refusal of a sheet but the one for no place.
fn show_refusals<K: Keeper + Drop, I: Index + Drop>(mut host: Printed<K, I>) -> anyhow::Result<()>
    requires { Whole K.Keeper I.Index host.sheet }
{
    println!(host.rt; "== refusals")?;
    let mut none = mark_cells(host.rt, 0)?;
    let mut table = mark_cells(host.rt, 1024)?;
    host.add(1, &[])?;
    host.add(2, &[1])?;
    host.add(2, &[3])?;
    host.add(2, &[0, 0, 0, 0, 0])?;
    host.same(none.as_mut_slice(), 1, 2)?;
    host.same(table.as_mut_slice(), 0, 1)?;
    host.differ(table.as_mut_slice(), 1, 3)?;
    host.differ(table.as_mut_slice(), 1, 1)?;
    host.must(3, 3)?;
    host.why(table.as_mut_slice(), 65535, 2)?;
    host.why(table.as_mut_slice(), 1, 2)?;
    Ok(())
}

// The chain of why and that of a `differ` entry that is refused, where twins follow from an entry.
fn show_twins<K: Keeper + Drop, I: Index + Drop>(mut host: Printed<K, I>) -> anyhow::Result<()>
    requires { Whole K.Keeper I.Index host.sheet }
{
    println!(host.rt;
        "== one entry makes three joins, and a differ entry against them is refused"
    )?;
    let mut table = mark_cells(host.rt, 1200)?;
    let mut other = mark_cells(host.rt, 1200)?;
    host.add(1, &[])?;
    host.add(2, &[1])?;
    host.add(2, &[2])?;
    host.add(3, &[3, 1])?;
    host.add(3, &[1, 1])?;
    host.same(table.as_mut_slice(), 2, 1)?;
    host.must(4, 5)?;
    let steps = host.why(table.as_mut_slice(), 4, 5)?;
    show_chain(host.rt, table.as_slice(), steps)?;
    let steps = host.differ(other.as_mut_slice(), 4, 5)?;
    show_chain(host.rt, other.as_slice(), steps)
}

// The chain of a `same` entry that is refused for an entry taken before it. It leaves the classes as they were.
fn show_broken_entry<K: Keeper + Drop, I: Index + Drop>(
    mut host: Printed<K, I>,
) -> anyhow::Result<()>
    requires { Whole K.Keeper I.Index host.sheet }
{
    println!(host.rt; "== an entry is refused that would break entry 1")?;
    let mut table = mark_cells(host.rt, 1200)?;
    host.add(1, &[])?;
    host.add(2, &[])?;
    host.add(3, &[1])?;
    host.add(3, &[2])?;
    host.differ(table.as_mut_slice(), 3, 4)?;
    let steps = host.same(table.as_mut_slice(), 1, 2)?;
    show_chain(host.rt, table.as_slice(), steps)?;
    host.must(1, 2)
}
