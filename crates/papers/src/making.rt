// `desk sheet TEXT OUT`: the sheet of a text in a new file.
use crate::{faults, meanings};
use channels::{fail, files, front, say, say_refusal};
use refusals::Refusal;
use std::env::Env;
use std::io;
use std::rt::Files;
use typing::Unmade;

// What is said is of a file that was written; why it could not be was told.
fn write_sheet<R: Env + Files + Print + Eprint>(
    rt: &R,
    sheet: &[u8],
    out: usize,
) -> io::Result<()> {
    if !files::write_named(rt, out, sheet) {
        return Ok(());
    }
    print!(rt; "made {} bytes\n", sheet.len())
}

// The line of the row that is refused: a refusal of no row has line 0.
fn say_line<P: Print>(rt: &P, line: usize) -> io::Result<()> {
    if line == 0 {
        return Ok(());
    }
    print!(rt; " line {line}")
}

fn say_refused_row<P: Print>(rt: &P, line: usize, why: Refusal) -> io::Result<()> {
    say_refusal(rt, why)?;
    say_line(rt, line)?;
    say(rt, b"\n")?;
    meanings::say_meaning(rt, why.number)
}

fn make<R: Env + Files + Print + Eprint>(rt: &R, text: &[u8], out: usize) -> io::Result<()> {
    let mut sheet = [0u8; files::ROOM];
    let made = typing::make(text, &mut sheet);
    match made {
        Ok(n) => write_sheet(rt, front(&sheet, n), out),
        Err(Unmade::Wrong(wrong)) => faults::say_wrong(rt, wrong, false),
        Err(Unmade::Refused(line, why)) => say_refused_row(rt, line, why),
    }
}

// The text is the file that word `from` names, the sheet the one that word `out` names.
pub(crate) fn run<R: Env + Files + Print + Eprint>(rt: &R, from: usize, out: usize) {
    let mut text = [0u8; files::TEXT];
    let Ok(n) = files::read_text(rt, from, &mut text) else {
        return;
    };
    if let Err(why) = make(rt, front(&text, n), out) {
        fail(rt, "desk: the answer cannot be written", why);
    }
}
