// `desk text SHEET` and `desk statement SHEET`: a sheet's text, and the statement of its hour as we settle it.
use channels::{fail, files, front, say, say_refused};
use refusals::Refusal;
use std::env::Env;
use std::io;
use std::rt::Files;

// Room for the text of every sheet, at most 114 bytes a row, and for every statement.
const ROOM: usize = 72960;

fn write_text(sheet: &[u8], stated: bool, out: &mut [u8]) -> Result<usize, Refusal> {
    if stated {
        telling::tell(sheet, out)
    } else {
        typing::texts::write(sheet, out)
    }
}

fn show<P: Print>(rt: &P, sheet: &[u8], stated: bool) -> io::Result<()> {
    let mut text = [0u8; ROOM];
    match write_text(sheet, stated, &mut text) {
        Ok(n) => say(rt, front(&text, n)),
        Err(why) => say_refused(rt, why),
    }
}

// The sheet is the file that word `from` names.
pub(crate) fn run<R: Env + Files + Print + Eprint>(rt: &R, from: usize, stated: bool) {
    let mut sheet = [0u8; files::ROOM];
    let Ok(n) = files::read_named(rt, from, &mut sheet) else {
        return;
    };
    if let Err(why) = show(rt, front(&sheet, n), stated) {
        fail(rt, "desk: the text cannot be written", why);
    }
}
