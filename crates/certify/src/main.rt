//! Reads `sheet.hoa` and `rule.hoa` from the working directory and says what it finds in them.
#![tactic(auto)]

use report::{Source, read_text, report_file};
use std::io::Write;
use std::{fs, io};

/// Prints what is found in a file, and answers whether to go on.
fn print(rt: &HostRuntime, source: Source, path: &str) -> io::Result<bool> {
    let file = fs::open(rt, path).and_then(|file| read_text(rt.alloc(), file));
    let report = report_file(rt.alloc(), source, &file.ok())?;
    rt.stdout().write_all(report.lines())?;
    Ok(report.goes_on())
}

fn main(rt: HostRuntime) -> io::Result<()> {
    if print(&rt, Source::Sheet, "sheet.hoa")? {
        print(&rt, Source::Rule, "rule.hoa")?;
    }
    Ok(())
}
