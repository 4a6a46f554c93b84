//! Reads `sheet.hoa` and `rule.hoa` from the working directory and says what they come to.
#![tactic(auto)]

use outcomes::{decide, outcome_lines};
use report::read_text;
use std::io::Write;
use std::{fs, io};

/// The bytes of a file, or none where it cannot be read.
// Each program opens its files itself, since no contract could say what a file gives.
fn read(rt: &HostRuntime, path: &str) -> Option<Vec<u8>> {
    let file = fs::open(rt, path).and_then(|file| read_text(rt.alloc(), file));
    file.ok()
}

fn main(rt: HostRuntime) -> io::Result<()> {
    let sheet = read(&rt, "sheet.hoa");
    let rule = read(&rt, "rule.hoa");
    let lines = outcome_lines(rt.alloc(), decide(&sheet, &rule))?;
    rt.stdout().write_all(lines.as_bytes())
}
