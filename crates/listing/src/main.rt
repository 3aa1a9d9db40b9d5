//! Prints the listing: for each case the policy, the type, the value, the bytes that are written and the claim.
#![tactic(auto)]

use cases::line::Line;
use cases::listing::fourteen_lines;

/// What stands before the bytes of each case. The labels are this program's texts; the lines are the library's, and proved, so they stand apart.
const LABELS: [&str; 14] = [
    "01 LV u64 250",
    "02 LV u64 251",
    "03 BV u64 251",
    "04 LV u64 65535",
    "05 LV u64 65536",
    "06 LV u64 4294967296",
    "07 BF u32 7",
    "08 LV i32 -1",
    "09 LV i32 -2147483648",
    "10 LV char 8364",
    "11 LV Option<u16> Some(7)",
    "12 LF Result<u8,bool> Err(true)",
    "13 LV Duration 1s5n",
    "14 LV f64 1",
];

/// One line of the listing. It is printed here and not by `Display`, since its form is this program's, with the label.
fn print_line(rt: &impl Print, label: &str, line: &Line) -> anyhow::Result<()> {
    print!(rt; "{label} ")?;
    for b in line.bytes.iter().take(line.len) {
        print!(rt; "{b:02x}")?;
    }
    match line.claim {
        Some(n) => println!(rt; " {n}")?,
        None => println!(rt; " -")?,
    }
    Ok(())
}

fn main(rt: HostRuntime) -> anyhow::Result<()> {
    println!(rt; "case policy type value bytes claim")?;
    for (label, line) in LABELS.iter().zip(fourteen_lines()?.iter()) {
        print_line(&rt, label, line)?;
    }
    Ok(())
}
