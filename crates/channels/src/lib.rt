// What the desk's words share: text, numbers and refusals on standard output, and what failed on standard error. Each function that says
// something answers whether all of it was written, and else why not.
#![tactic(auto)]

pub mod files;

ghost use Rattle.std.specs.Prelude.{◌≡◌, take};

use printing::pen;
use refusals::Refusal;
use std::io;
use std::io::Error;

pub fn say<P: Print>(rt: &P, text: &[u8]) -> io::Result<()> {
    rt.write_all(text)
}

pub fn say_number<P: Print>(rt: &P, n: u64) -> io::Result<()> {
    rt.print(n)
}

// As on the page, with a minus and no plus; a space stands before it.
pub fn say_signed<P: Print>(rt: &P, x: i64) -> io::Result<()> {
    let mut text = [0u8; 22];
    let from = pen::signed(&mut text, 22, x);
    say(rt, behind(&text, from))
}

// As on the page of a sheet that is turned away.
pub fn say_refused<P: Print>(rt: &P, why: Refusal) -> io::Result<()> {
    say_refusal(rt, why)?;
    say(rt, b"\n")
}

// The same without its line end.
pub fn say_refusal<P: Print>(rt: &P, why: Refusal) -> io::Result<()> {
    print!(rt; "refused {} {}", why.number, why.place)
}

// A line on standard error: what failed, and why. Where that cannot be told either, nobody is left to tell.
pub fn fail<E: Eprint>(rt: &E, what: &str, why: Error) {
    let _ = eprint!(rt; "{what}: {why}\n");
}

// The first n bytes, or all where there are no more.
pub fn front(bytes: &[u8], n: usize) -> &[u8]
    ensures { result.now ≡ take n bytes.now }
{
    &bytes[..n.min(bytes.len())]
}

// The bytes from the n-th on, if there are any.
fn behind(bytes: &[u8], n: usize) -> &[u8] {
    &bytes[n.min(bytes.len())..]
}
