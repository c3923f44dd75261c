// The desk's words, one command after another in one process: a program loads every proof below it, so one that runs them all is checked
// in the time of one. Its own words are the commands, with `+` between; a command of no words settles the standard input. Each is printed
// as a heading, and then the desk does what it asks for. `show FILE` is none of the desk's: it prints the bytes of a file and a line end,
// or that there is no such file.
#![tactic(auto)]

use channels::{files, say};
use std::env::Env;
use std::io;
use std::rt::Files;

fn is_word<E: Env>(rt: &E, i: usize, text: &[u8]) -> bool {
    let mut word = [0u8; 16];
    let n = words::word(rt, i, &mut word);
    words::is_same(&word[..n], text)
}

fn say_word<R: Env + Print>(rt: &R, i: usize) -> io::Result<()> {
    let mut word = [0u8; files::NAME];
    let n = words::word(rt, i, &mut word);
    say(rt, b" ")?;
    say(rt, &word[..n])
}

fn say_heading<R: Env + Print>(rt: &R, first: usize, end: usize) -> io::Result<()> {
    say(rt, b"==")?;
    for i in first..end {
        say_word(rt, i)?;
    }
    say(rt, b"\n")
}

// The file that word i names: its first 4096 bytes.
fn show<R: Env + Files + Print>(rt: &R, i: usize) -> io::Result<()> {
    let mut path = [0u8; files::NAME];
    let n = words::word(rt, i, &mut path);
    let mut bytes = [0u8; 4096];
    match input::read_file(rt, &path[..n], &mut bytes) {
        Ok(m) => {
            say(rt, &bytes[..m])?;
            say(rt, b"\n")
        }
        Err(_) => say(rt, b"no file\n"),
    }
}

// The command that the words from `first` up to, not including, `end` are.
fn run_command<R: Env + Files + io::Input + Print + Eprint>(
    rt: &R,
    first: usize,
    end: usize,
) -> io::Result<()> {
    say_heading(rt, first, end)?;
    if first < end && is_word(rt, first, b"show") {
        return show(rt, first + 1);
    }
    console::run_words(rt, first, end);
    Ok(())
}

fn main(rt: HostRuntime) -> io::Result<()> {
    let all = words::count(&rt);
    let mut first = 1;
    for i in 1..all {
        if is_word(&rt, i, b"+") {
            run_command(&rt, first, i)?;
            first = i + 1;
        }
    }
    run_command(&rt, first, all)
}
