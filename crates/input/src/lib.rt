// What the programs read: standard input, and files by name. A read that fails is told apart from an input that ends.
#![tactic(auto)]

ghost use Rattle.std.specs.Prelude.{length};
ghost use Rattle.input.specs.Input.{Within, Taken};

use std::io::{Error, ErrorKind, Read};
use std::rt::Files;
use std::{fs, io, str};

pub mod cases;

// What an open input has, piece by piece, until it ends or the buffer is full: how many bytes it has filled, or why a read failed.
pub fn read_all<R: Read>(from: &mut R, buf: &mut [u8]) -> io::Result<usize>
    ensures within { Within result (length buf.new) }
    ensures bytes { Taken (R.remaining from.old) (R.remaining from.new) result buf.new }
{
    let mut n = 0;
    // A piece has any size that the input gives it, so the loop counts bytes and not turns.
    while n < buf.len() {
        let more = from.read(&mut buf[n..])?;
        if more == 0 {
            break;
        }
        n += more;
    }
    Ok(n)
}

// The file of that name, until it ends or the buffer is full.
pub fn read_file<R: Files>(rt: &R, path: &[u8], buf: &mut [u8]) -> io::Result<usize>
    ensures { Within result (length buf.new) }
{
    let Ok(name) = str::from_utf8(path) else {
        return Err(Error::from(ErrorKind::InvalidFilename));
    };
    let mut file = fs::open(rt, name)?;
    read_all(&mut file, buf)
}
