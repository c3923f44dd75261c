// `desk day FILE..`: 24 sheets, an hour a file, and their pages one behind another.
ghost use Rattle.std.specs.Prelude.{◌+◌, ◌≤◌};
ghost use Rattle.day.specs.Day.{hours};

use channels::{fail, files, front, say};
use day::HOURS;
use std::env::Env;
use std::io;
use std::io::Error;
use std::rt::Files;

// An hour's file each.
type Sheets = [[u8; files::ROOM]; HOURS];

// Reads all files, the first of which word `first` names, each to a place of its own. Where one cannot be read, which is told by its
// name, there is no day.
fn read_files<R: Env + Files + Eprint>(
    rt: &R,
    first: usize,
    sheets: &mut Sheets,
    sizes: &mut [usize; HOURS],
) -> bool
    requires { first + hours ≤ 18446744073709551615 }
{
    for h in 0..HOURS {
        let Ok(n) = files::read_named(rt, first + h, &mut sheets[h]) else {
            return false;
        };
        sizes[h] = n;
    }
    true
}

// The line above a page: the hour and its file, which word `from` names.
fn print_head<R: Env + Print>(rt: &R, h: usize, from: usize) -> io::Result<()> {
    let mut path = [0u8; files::NAME];
    let n = words::word(rt, from, &mut path);
    print!(rt; "sheet {h} ")?;
    say(rt, &path[..n])?;
    say(rt, b"\n")
}

// A settled hour's page begins with `hour`, a refused one's with `refused`.
fn is_settled(page: &[u8]) -> bool {
    page.starts_with(b"h")
}

// The page of hour h under its line. Answers whether the hour was settled.
fn print_hour<R: Env + Print>(rt: &R, h: usize, from: usize, sheet: &[u8]) -> io::Result<bool> {
    let mut text = [0u8; page::MOST];
    let Ok(n) = page::page(sheet, &mut text) else {
        return Err(Error::other("a page is longer than any page can be"));
    };
    let page = &text[..n];
    print_head(rt, h, from)?;
    say(rt, page)?;
    Ok(is_settled(page))
}

// How many hours were settled, and which were refused.
fn print_last<P: Print>(rt: &P, settled: &[bool; HOURS]) -> io::Result<()> {
    let count = settled.iter().filter(|is| **is).count();
    print!(rt; "day {count} settled, refused:")?;
    for (h, settled) in settled.iter().enumerate() {
        if !*settled {
            print!(rt; " {h}")?;
        }
    }
    say(rt, b"\n")
}

// The pages, and the line on the whole day.
fn print_day<R: Env + Print>(
    rt: &R,
    first: usize,
    sheets: &Sheets,
    sizes: &[usize; HOURS],
) -> io::Result<()>
    requires { first + hours ≤ 18446744073709551615 }
{
    let mut settled = [false; HOURS];
    for h in 0..HOURS {
        let sheet = front(&sheets[h], sizes[h]);
        settled[h] = print_hour(rt, h, first + h, sheet)?;
    }
    print_last(rt, &settled)
}

fn run_files<R: Env + Files + Print + Eprint>(rt: &R, first: usize)
    requires { first + hours ≤ 18446744073709551615 }
{
    let mut sheets = [[0u8; files::ROOM]; HOURS];
    let mut sizes = [0usize; HOURS];
    if !read_files(rt, first, &mut sheets, &mut sizes) {
        return;
    }
    if let Err(why) = print_day(rt, first, &sheets, &sizes) {
        fail(rt, "desk: the day cannot be written", why);
    }
}

// The words from `next` up to, not including, `end` name the files: a day has 24, and with fewer or more of them nothing is settled. Not
// inlined, so that the 24 sheets are on the stack of this command alone.
#[inline(never)]
pub(crate) fn run<R: Env + Files + Print + Eprint>(rt: &R, next: usize, end: usize)
    requires { next ≤ end }
{
    if end - next == HOURS {
        run_files(rt, next);
    } else {
        let _ = rt.eprint(
            "desk: a day has 24 files, one an hour in their order: desk day FILE FILE ..\n",
        );
    }
}
