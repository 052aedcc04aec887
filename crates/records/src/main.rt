// Prints the record of each list that is named on the command line, made with one keeper and one index, and whether the other keepers and indexes make
// the same.
#![tactic(auto)]

use indexes::{Chained, Index, Plain};
use keepers::{Keeper, Links, Relabel};
use printouts::print_record;
use std::{env, fs};

fn main(rt: HostRuntime) -> anyhow::Result<()> {
    for name in env::args(&rt)?.skip(1) {
        show(&rt, name.as_str())?;
    }
    Ok(())
}

// Prints the record of one list.
fn show(rt: &HostRuntime, name: &str) -> anyhow::Result<()> {
    let heap = rt.alloc();
    let list = fs::read(rt, name)?;
    let text = list.as_slice();
    let record = print_record(heap, Links::new(heap)?, Chained::new(heap)?, text)?;
    println!(rt; "== {name}")?;
    rt.write_all(record.as_bytes())?;
    let compare = Compare {
        text,
        record: record.as_str(),
    };
    compare.with(
        rt,
        "parent links and the plain list",
        Links::new(heap)?,
        Plain::new(heap)?,
    )?;
    compare.with(
        rt,
        "relabelling and the chained index",
        Relabel::new(heap)?,
        Chained::new(heap)?,
    )?;
    compare.with(
        rt,
        "relabelling and the plain list",
        Relabel::new(heap)?,
        Plain::new(heap)?,
    )
}

// A list and its record.
#[derive(Drop)]
struct Compare<'a> {
    text: &'a [u8],
    record: &'a str,
}

impl Compare<'_> {
    // Says whether the record that other parts make is the same.
    fn with<K: Keeper + Drop, I: Index + Drop>(
        &self,
        rt: &HostRuntime,
        parts: &str,
        keeper: K,
        index: I,
    ) -> anyhow::Result<()> {
        let other = print_record(rt.alloc(), keeper, index, self.text)?;
        let verdict = if self.record == other.as_str() {
            "the same"
        } else {
            "ANOTHER"
        };
        println!(rt; "-- {parts}: {verdict}")?;
        Ok(())
    }
}
