// What the program prints: words and numbers, a line for each answer and for each lent list.
use refusals::{Refusal, Verdict};
use std::fmt::Display;
use std::io;

pub(crate) fn word<P: Print>(rt: &P, w: &str) -> io::Result<()> {
    rt.print(w)
}

pub(crate) fn number<P: Print>(rt: &P, n: u64) -> io::Result<()> {
    print!(rt; " {n}")
}

pub(crate) fn heading<P: Print>(rt: &P, case: u64) -> io::Result<()> {
    print!(rt; "case {case}\n")
}

pub(crate) fn refused<P: Print>(rt: &P, why: Refusal) -> io::Result<()> {
    print!(rt; "refused {} {}", why.number, why.place)
}

pub(crate) fn verdict<P: Print>(rt: &P, v: Verdict) -> io::Result<()> {
    match v {
        Ok(()) => word(rt, "fine"),
        Err(why) => refused(rt, why),
    }
}

// What a C function returns.
pub(crate) fn returned<P: Print>(rt: &P, n: u32) -> io::Result<()> {
    print!(rt; "returns {n}")
}

pub(crate) fn numbers<P: Print, N: Display>(rt: &P, list: &[N]) -> io::Result<()> {
    for n in list {
        print!(rt; " {n}")?;
    }
    Ok(())
}

// Money: below 0 only the sign, since a page shows the rest.
fn signed<P: Print>(rt: &P, n: i64) -> io::Result<()> {
    if n < 0 {
        word(rt, " -")
    } else {
        print!(rt; " {n}")
    }
}

pub(crate) fn money<P: Print>(rt: &P, list: &[i64]) -> io::Result<()> {
    for n in list {
        signed(rt, *n)?;
    }
    Ok(())
}
