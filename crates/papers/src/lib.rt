// What the desk does with papers: sheets and statements as text. It only reads, calls and writes, so no contract can say more of it than
// that it is safe and ends.
#![tactic(auto)]

mod checks;
mod differences;
mod faults;
mod making;
mod meanings;
mod showing;

use std::env::Env;
use std::rt::Files;

// The words that take one file.
fn run_one<R: Env + Files + Print + Eprint>(rt: &R, word: &[u8], from: usize) -> bool {
    let is = |name: &[u8]| words::is_same(word, name);
    if is(b"text") {
        showing::run(rt, from, false);
    } else if is(b"statement") {
        showing::run(rt, from, true);
    } else {
        return false;
    }
    true
}

// The words that take two.
fn run_two<R: Env + Files + Print + Eprint>(rt: &R, word: &[u8], one: usize, other: usize) -> bool {
    let is = |name: &[u8]| words::is_same(word, name);
    if is(b"sheet") {
        making::run(rt, one, other);
    } else if is(b"check") {
        checks::run(rt, one, other);
    } else {
        return false;
    }
    true
}

// What the word asks for, with the words from number `next` up to, not including, `end` behind it. Answers whether it is one of these
// words, with as many behind it as it takes.
pub fn run<R: Env + Files + Print + Eprint>(rt: &R, word: &[u8], next: usize, end: usize) -> bool {
    if end < next {
        return false;
    }
    match end - next {
        1 => run_one(rt, word, next),
        2 => run_two(rt, word, next, next + 1),
        _ => false,
    }
}
