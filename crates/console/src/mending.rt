// `desk mend SHEET OUT`: a mended copy of a sheet in a new file, and a line for every byte changed.
use channels::{fail, files, say_refused};
use limits::{Agent, Boundary};
use refusals::Refusal;
use sheet::Counts;
use std::env::Env;
use std::io;
use std::rt::Files;

// The bytes that can change, 12 an agent, 4 a boundary and 16 of distances; and the cells of their report, three a change.
const CHANGES: usize = 12 * Agent::MOST + 4 * Boundary::MOST + 16;

const REPORT: usize = 3 * CHANGES;

// The row of an agent or of a boundary; what changes there are its unused bytes.
fn say_row<P: Print>(rt: &P, section: &str, row: usize) -> io::Result<()> {
    print!(rt; " in {section} {row}, unused\n")
}

// What stands at a place of the trailer, in a sheet of that size: its rows have two distances each.
fn distance(size: usize, place: u32) -> &'static str {
    let byte = place % 16;
    let last = size <= place as usize + 16;
    if last & (byte < 8) {
        " in the trailer, distance to the plants\n"
    } else if last {
        " in the trailer, distance to the contracts\n"
    } else if byte < 8 {
        " in the trailer, distance to the agents\n"
    } else {
        " in the trailer, distance to the boundaries\n"
    }
}

// The row and the field that a changed byte lies in: plants and contracts have none.
fn say_where<P: Print>(rt: &P, c: Counts, size: usize, place: u32) -> io::Result<()> {
    let row = place as usize / 16;
    if row < c.agents {
        return say_row(rt, "agent", row);
    }
    let behind = row - c.agents;
    if behind < c.boundaries {
        return say_row(rt, "boundary", behind);
    }
    rt.print(distance(size, place))
}

// One change: a place, its byte before and its byte after.
fn say_change<P: Print>(rt: &P, c: Counts, size: usize, change: [u32; 3]) -> io::Result<()> {
    let [place, before, after] = change;
    print!(rt; "byte {place} was {before} now {after}")?;
    say_where(rt, c, size, place)
}

// Changes of three cells each.
fn say_changes<P: Print>(rt: &P, c: Counts, size: usize, changes: &[u32]) -> io::Result<()> {
    for i in 0..changes.len() / 3 {
        let k = 3 * i;
        say_change(rt, c, size, [changes[k], changes[k + 1], changes[k + 2]])?;
    }
    Ok(())
}

// A line a change, and how many there are.
fn say_mended<P: Print>(rt: &P, sheet: &[u8], changes: &[u32]) -> io::Result<()> {
    let Ok(c) = sheet::counting::count_rows(sheet) else {
        return Ok(());
    };
    say_changes(rt, c, sheet.len(), changes)?;
    print!(rt; "changed {}\n", changes.len() / 3)
}

fn tell_refused<R: Print + Eprint>(rt: &R, why: Refusal) {
    if let Err(why) = say_refused(rt, why) {
        fail(rt, "desk: the refusal cannot be printed", why);
    }
}

fn tell_mended<R: Print + Eprint>(rt: &R, sheet: &[u8], changes: &[u32]) {
    if let Err(why) = say_mended(rt, sheet, changes) {
        fail(rt, "desk: the changes cannot be printed", why);
    }
}

// The copy goes to its file first: what is printed is of a file that was written.
fn mend_sheet<R: Env + Files + Print + Eprint>(rt: &R, sheet: &[u8], out: usize) {
    let mut copy = [0u8; files::ROOM];
    let mut report = [0u32; REPORT];
    match mend::mend(sheet, &mut copy, &mut report) {
        Err(why) => tell_refused(rt, why),
        Ok(n) => {
            if sheet.len() <= copy.len() {
                if files::write_named(rt, out, &copy[..sheet.len()]) {
                    tell_mended(rt, sheet, &report[..3 * n.min(CHANGES)]);
                }
            }
        }
    }
}

// The sheet is the file that word `from` names, the copy the one that word `out` names. Not inlined, so that sheet, copy and report are on
// the stack of this command alone.
#[inline(never)]
pub(crate) fn run<R: Env + Files + Print + Eprint>(rt: &R, from: usize, out: usize) {
    let mut sheet = [0u8; files::ROOM];
    if let Ok(n) = files::read_named(rt, from, &mut sheet) {
        mend_sheet(rt, &sheet[..n], out);
    }
}
