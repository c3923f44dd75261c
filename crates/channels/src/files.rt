// The files that the program's words name.
ghost use Rattle.std.specs.Prelude.{length};
ghost use Rattle.input.specs.Input.{Within};

use sheet::Counts;
use std::env::Env;
use std::io::{Error, ErrorKind};
use std::rt::Files;
use std::{io, str};

// Room for a sheet: one row more than the longest, so that a longer file is seen to be one.
pub const ROOM: usize = Counts::LONGEST + 16;

// Room for a text: three times the longest that a sheet has when it is printed, for comments and empty cells.
pub const TEXT: usize = 262144;

// Room for a file's name, which the system takes up to this.
pub const NAME: usize = 4096;

// What became of a file, by its name, on standard error: of a name that is no text each strange byte is shown by its number.
fn tell<E: Eprint>(rt: &E, what: &str, name: &[u8]) {
    let _ = match str::from_utf8(name) {
        Ok(name) => eprint!(rt; "desk: {what}: {name}"),
        Err(_) => eprint!(rt; "desk: {what}: {}", name.escape_ascii()),
    };
}

fn tell_why<E: Eprint>(rt: &E, what: &str, name: &[u8], why: Error) {
    tell(rt, what, name);
    let _ = eprint!(rt; ": {why}\n");
}

// The file that word i names, until it ends or the buffer is full. That it cannot be read is told on standard error, by its name.
pub fn read_named<R: Env + Files + Eprint>(rt: &R, i: usize, buf: &mut [u8]) -> io::Result<usize>
    ensures { Within result (length buf.new) }
{
    let mut path = [0u8; NAME];
    let n = words::word(rt, i, &mut path);
    let got = input::read_file(rt, &path[..n], buf);
    if let Err(why) = got {
        tell_why(rt, "cannot be read", &path[..n], why);
    }
    got
}

fn say_too_long<R: Env + Eprint>(rt: &R, i: usize) {
    let mut path = [0u8; NAME];
    let n = words::word(rt, i, &mut path);
    tell(rt, "longer than a text may be", &path[..n]);
    let _ = rt.eprint("\n");
}

// The text that word i names, whole or not at all: one that fills the buffer may go on behind it.
pub fn read_text<R: Env + Files + Eprint>(rt: &R, i: usize, buf: &mut [u8]) -> io::Result<usize>
    ensures { Within result (length buf.new) }
{
    let n = read_named(rt, i, buf)?;
    if n < buf.len() {
        return Ok(n);
    }
    say_too_long(rt, i);
    Err(Error::from(ErrorKind::FileTooLarge))
}

// Makes a new file, of the name that word i has, of these bytes, and answers whether it did. Why it could not is told on standard error;
// then nothing is left under that name, or what was there before.
pub fn write_named<R: Env + Files + Eprint>(rt: &R, i: usize, bytes: &[u8]) -> bool {
    let mut path = [0u8; NAME];
    let n = words::word(rt, i, &mut path);
    match words::write_new(rt, &path[..n], bytes) {
        Ok(()) => true,
        Err(why) => {
            tell_why(rt, "cannot be written", &path[..n], why);
            false
        }
    }
}
