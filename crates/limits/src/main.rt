// Runs lists at the limits of the rules, and prints of each record how many lines it has and what its first and last lines are.
#![tactic(auto)]

use indexes::Chained;
use keepers::Links;
use printouts::print_record;

fn main(rt: HostRuntime) -> anyhow::Result<()> {
    let short: [(&str, &[u8]); 8] = [
        ("an empty text", b""),
        ("a line that ends too early", b"s 1"),
        ("a number that is too wide", b"s 65536 1\n"),
        ("an empty line", b"\n"),
        (
            "two lines that end with carriage return and newline",
            b"p 1\r\np 2\r\n",
        ),
        ("a NUL", b"p 1\0\n"),
        ("a last line without its newline", b"p 1\np 2"),
        ("bytes that are no text", b"\xff\xfe\x00\x01\x80 \n\x7f"),
    ];
    for (name, text) in short {
        show(&rt, name, text)?;
    }
    // each long list is made when it is shown, so that memory refused for one loses nothing of what comes before
    let full = full_of_entries(&rt)?;
    show(&rt, "2,048 entries, and then d 1 1", full.as_slice())?;
    let most = newlines(&rt, 65536)?;
    show(&rt, "65,536 bytes", most.as_slice())?;
    let over = newlines(&rt, 65537)?;
    show(&rt, "65,537 bytes", over.as_slice())
}

// One picture, 2,048 entries, and one entry more.
fn full_of_entries(rt: &HostRuntime) -> anyhow::Result<Vec<u8>> {
    let mut text = Vec::from_slice(rt.alloc(), b"p 1\n")?;
    for _ in 0..2048 {
        text.extend_from_slice(b"s 1 1\n")?;
    }
    text.extend_from_slice(b"d 1 1\n")?;
    Ok(text)
}

// So many empty lines.
fn newlines(rt: &HostRuntime, n: usize) -> anyhow::Result<Vec<u8>> {
    Ok(vec![in rt.alloc(); b'\n'; n]?)
}

// Prints what the record of a list has.
fn show(rt: &HostRuntime, name: &str, text: &[u8]) -> anyhow::Result<()> {
    let heap = rt.alloc();
    let record = print_record(heap, Links::new(heap)?, Chained::new(heap)?, text)?;
    let count = record.lines().count();
    println!(rt; "== {name}: {count} lines")?;
    for line in record.lines().take(2) {
        println!(rt; "{line}")?;
    }
    if count > 4 {
        println!(rt; "..")?;
    }
    if count > 2 {
        for line in record.lines().skip(count.saturating_sub(2).max(2)) {
            println!(rt; "{line}")?;
        }
    }
    Ok(())
}
