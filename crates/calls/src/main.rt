// Calls the public functions of the library, and those for C, on inputs from standard input; prints what each answers and what it
// leaves in the lists that it was lent. `tools/calls` makes the cases and has their answers, worked out by hand.
//
// A case is whole rows of 16 bytes. The first four are 16 numbers: the call, two numbers, the count of bytes, the counts of four
// lists, the rooms of six lent lists, the case's rows, and 0. Then come the bytes and the lists of 32-bit numbers, each from a new row on.
#![tactic(auto)]

use std::io;

mod books;
mod cases;
mod exported;
mod library;
mod printer;

fn run_all<P: Print>(rt: &P, s: &[u8]) -> io::Result<()> {
    let rows = s.len() / 16;
    if 8192 < rows {
        return Ok(());
    }
    let mut at = 0;
    let mut case: u64 = 0;
    // A case has as many rows as it says, so the loop counts rows and not turns.
    while at < rows {
        printer::heading(rt, case)?;
        at += cases::run(rt, s, at)?;
        case += 1;
    }
    Ok(())
}

fn main(rt: HostRuntime) -> io::Result<()> {
    let mut buf = [0u8; 131072];
    let mut from = rt.reader();
    match input::read_all(&mut from, &mut buf) {
        Err(_) => rt.eprint("calls: the input cannot be read\n"),
        Ok(n) if n == buf.len() => rt.eprint("calls: the input is too long\n"),
        Ok(n) => run_all(&rt, &buf[..n]),
    }
}
