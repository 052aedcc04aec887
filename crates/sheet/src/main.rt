// Reads a list from standard input, and prints its record.
#![tactic(auto)]

use indexes::Chained;
use keepers::Links;
use printouts::print_record;
use std::io::Read;

fn main(rt: HostRuntime) -> anyhow::Result<()> {
    let heap = rt.alloc();
    let mut text = Vec::new(heap);
    rt.stdin().take(65537).read_to_end(&mut text)?;
    let out = print_record(
        heap,
        Links::new(heap)?,
        Chained::new(heap)?,
        text.as_slice(),
    )?;
    rt.write_all(out.as_bytes())?;
    Ok(())
}
