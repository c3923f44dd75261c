// The words behind a program's name, and the files that they name.
#![tactic(auto)]

ghost use Rattle.std.specs.Prelude.{◌≡◌, ◌≤◌, length, Some};
ghost use Rattle.words.specs.Words.{same_word, spelled_in, with_digit};

use std::env::{Env, FillError};
use std::fs::{OpenFile, OpenOptions};
use std::io::{Error, ErrorKind, Write};
use std::rt::Files;
use std::{fs, io, str};

// Puts word i at the front of the buffer and answers its length: 0 where there is no such word, or where it is longer than the buffer.
pub fn word<E: Env>(rt: &E, i: usize, buf: &mut [u8]) -> usize
    ensures { result ≤ length buf.new }
{
    rt.arg(i, buf).unwrap_or(0)
}

// How many words there are, the program's own name among them.
pub fn count<E: Env>(rt: &E) -> usize {
    for i in 0..usize::MAX {
        if let Err(FillError::NotPresent) = rt.arg(i, &mut []) {
            return i;
        }
    }
    usize::MAX
}

// Whether two words are the same.
pub fn is_same(a: &[u8], b: &[u8]) -> bool
    ensures { result ≡ same_word a.now b.now }
{
    a == b
}

// A number with one digit more.
#[tactic(auto, unfolding(crate::specs::Words::with_digit))]
fn with_digit(value: u32, byte: u8) -> Option<u32>
    ensures { result ≡ with_digit (Some value) byte }
{
    match byte {
        b'0'..=b'9' if value <= 99999999 => Some(10 * value + u32::from(byte - b'0')),
        _ => None,
    }
}

// The number that a word of digits spells.
pub fn number_of(word: &[u8]) -> Option<u32>
    ensures { result ≡ spelled_in word.now }
{
    if word.is_empty() {
        return None;
    }
    let mut value = 0;
    for &byte in word {
        value = with_digit(value, byte)?;
    }
    Some(value)
}

// All bytes, and no less, behind one another in the file, which is closed then. What the system holds back is waited for: it could not be
// told later that it failed.
fn fill<F: Write + OpenFile + Drop>(mut file: F, bytes: &[u8]) -> io::Result<()> {
    file.write_all(bytes)?;
    file.sync_all()
}

// A new file of that name, where there is none.
fn create<R: Files>(rt: &R, name: &str) -> io::Result<R::File> {
    OpenOptions::new()
        .write(true)
        .create_new(true)
        .open(rt, name)
}

// Makes a new file of these bytes. Where that fails, as where the name is taken, the error says why and no file of it is left.
pub fn write_new<R: Files>(rt: &R, path: &[u8], bytes: &[u8]) -> io::Result<()> {
    let Ok(name) = str::from_utf8(path) else {
        return Err(Error::from(ErrorKind::InvalidFilename));
    };
    let file = create(rt, name)?;
    let written = fill(file, bytes);
    if written.is_err() {
        let _ = fs::remove_file(rt, name);
    }
    written
}
