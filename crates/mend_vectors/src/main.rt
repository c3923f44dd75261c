// Reads sheets from standard input and prints what mending, by the function for C, answers to each: how many changes, and a line a change.
// A case is a 32-bit length, the low byte first, that many bytes, and two 32-bit numbers: the room of the copy in bytes, and that of
// the report in changes. A copy that isn't the sheet with just the changes reported, or a byte or cell that was not to be written
// and was, is told in a line that no expected answer has.
#![tactic(auto)]

ghost use Rattle.std.specs.Prelude.{◌≤◌, ◌<◌};

use input::cases::Broken;
use std::io;
use std::io::Read;

// What stands in the lent lists before, so that a write can be seen.
const BYTE: u8 = 165;

const CELL: u32 = 2779096485;

// The lent lists, behind a call.
#[derive(Clone, Copy)]
struct Lists<'a> {
    copy: &'a [u8],
    report: &'a [u32],
}

// Byte k of a list, and number j of change i in a report; 0 past the end.
fn byte(s: &[u8], k: usize) -> u32 {
    if k < s.len() { u32::from(s[k]) } else { 0 }
}

fn figure(report: &[u32], i: usize, j: usize) -> u32
    requires { j < 3 }
{
    if i < report.len() / 3 {
        report[3 * i + j]
    } else {
        0
    }
}

// Whether nothing was written from there on.
fn kept<T: Copy + PartialEq>(list: &[T], from: usize, before: T) -> bool {
    list.iter().skip(from).all(|x| *x == before)
}

// Where the cells of n changes end.
fn cells(report: &[u32], n: usize) -> usize {
    if n < report.len() / 3 {
        3 * n
    } else {
        report.len()
    }
}

// Whether byte k is as it was, or change i is its change, from the old byte to the new one.
fn is_told(report: &[u32], i: usize, k: usize, old: u32, new: u32) -> bool {
    (old == new)
        | ((figure(report, i, 0) as usize == k)
            & (figure(report, i, 1) == old)
            & (figure(report, i, 2) == new))
}

// Whether the copy is the sheet but for the n changes reported, which stand in rising place.
fn as_reported(s: &[u8], copy: &[u8], report: &[u32], n: usize) -> bool {
    let mut i: usize = 0;
    for k in 0..s.len() {
        let old = byte(s, k);
        let new = byte(copy, k);
        if !is_told(report, i, k, old, new) {
            return false;
        }
        i += usize::from(old != new);
    }
    i == n
}

fn print_change<P: Print>(rt: &P, report: &[u32], i: usize) -> io::Result<()> {
    let place = figure(report, i, 0);
    let old = figure(report, i, 1);
    let new = figure(report, i, 2);
    print!(rt; "{place} {old} {new}\n")
}

fn print_changes<P: Print>(rt: &P, report: &[u32], n: usize) -> io::Result<()> {
    for i in 0..n {
        print_change(rt, report, i)?;
    }
    Ok(())
}

// A line that no expected answer has, where something does not hold.
fn tell_unless<P: Print>(rt: &P, holds: bool, line: &str) -> io::Result<()> {
    if holds { Ok(()) } else { rt.print(line) }
}

fn print_mended<P: Print>(rt: &P, s: &[u8], lists: Lists<'_>, changes: u32) -> io::Result<()> {
    let Lists { copy, report } = lists;
    let n = changes as usize;
    print!(rt; "mended {n}\n")?;
    print_changes(rt, report, n)?;
    let told = as_reported(s, copy, report, n);
    tell_unless(rt, told, "the copy is not the sheet with these changes\n")?;
    let kept = kept(copy, s.len(), BYTE) & kept(report, cells(report, n), CELL);
    tell_unless(rt, kept, "more was written than was needed\n")
}

fn print_refusal<P: Print>(rt: &P, number: u32, place: u32, lists: Lists<'_>) -> io::Result<()> {
    print!(rt; "refused {number} {place}\n")?;
    let kept = kept(lists.copy, 0, BYTE) & kept(lists.report, 0, CELL);
    tell_unless(rt, kept, "a refusal has written\n")
}

fn print_case<P: Print>(rt: &P, s: &[u8], copy: &mut [u8], report: &mut [u32]) -> io::Result<()> {
    let mut answer = [0u32; 3];
    let number = capi::mending::naomhral_mend(s, copy, report, &mut answer);
    if number == 0 {
        print_mended(rt, s, Lists { copy, report }, answer[2])?;
    } else {
        print_refusal(rt, answer[0], answer[1], Lists { copy, report })?;
    }
    let same = number == answer[0];
    tell_unless(rt, same, "the number returned is not the answer's\n")
}

// Lends just the room that the case says, that of the copy in bytes and that of the report in changes, and says whether there is so much.
fn lend<P: Print + Eprint>(
    rt: &P,
    case: u64,
    s: &[u8],
    bytes: usize,
    changes: u32,
) -> io::Result<bool> {
    let mut copy = [BYTE; 16384];
    let mut report = [CELL; 6144];
    let cells = 3 * (changes as usize);
    if copy.len() < bytes || report.len() < cells {
        input::cases::complain(rt, Err(Broken::Cut));
        return Ok(false);
    }
    print!(rt; "case {case}\n")?;
    print_case(rt, s, &mut copy[..bytes], &mut report[..cells])?;
    Ok(true)
}

// The room of copy and report, behind the sheet; and whether to go on.
fn run_rooms<P: Print + Eprint, R: Read>(
    rt: &P,
    from: &mut R,
    case: u64,
    s: &[u8],
) -> io::Result<bool> {
    let Ok(Some(bytes)) = input::cases::next_number(from) else {
        input::cases::complain(rt, Err(Broken::Cut));
        return Ok(false);
    };
    let Ok(Some(changes)) = input::cases::next_number(from) else {
        input::cases::complain(rt, Err(Broken::Cut));
        return Ok(false);
    };
    lend(rt, case, s, bytes as usize, changes)
}

fn run_case<P: Print + Eprint, R: Read>(rt: &P, from: &mut R, case: u64) -> io::Result<bool> {
    let mut buf = [0u8; 16384];
    let sheet = input::cases::read_case(from, &mut buf);
    let Ok(Some(n)) = sheet else {
        input::cases::complain(rt, sheet);
        return Ok(false);
    };
    run_rooms(rt, from, case, &buf[..n])
}

fn main(rt: HostRuntime) -> io::Result<()> {
    let mut from = rt.reader();
    for case in 0..1000000u64 {
        if !run_case(&rt, &mut from, case)? {
            break;
        }
    }
    Ok(())
}
