//! Reads the cases of a table from standard input, and prints what the reader answers to each, on a line of its own.
#![tactic(auto)]

mod answer;
mod automata;
mod case;
mod escape;
mod field;

use answer::answer;
use field::{behind, front};
use std::io;
use std::io::{Read, Write};

fn main(rt: HostRuntime) -> io::Result<()> {
    let mut table = Vec::new(rt.alloc());
    rt.stdin().read_to_end(&mut table)?;
    let mut rest = table.as_slice();
    while !rest.is_empty() {
        let line = answer(rt.alloc(), front(rest, b'\n'))?;
        rt.stdout().write_all(line.as_slice())?;
        rest = behind(rest, b'\n');
    }
    Ok(())
}
