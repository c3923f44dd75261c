// A day's book in cells, by the functions for C: so many cells are lent, and all hold 0, which is an empty book, or 9, which is none. The
// line says what the call returns, then the cells of hour 0 and the totals.
ghost use Rattle.std.specs.Prelude.{◌≤◌};

use crate::printer;
use std::io;

const CELLS: usize = 130;

fn cells(fill: u32) -> [u64; CELLS] {
    if fill == 0 {
        [0u64; CELLS]
    } else {
        [9u64; CELLS]
    }
}

fn lent(n: u32) -> usize
    ensures { result ≤ 130 }
{
    n.min(130) as usize
}

// The numbers are hour, demand, losses, bought and price; without them the book is emptied.
fn call(enters: bool, book: &mut [u64], n: &[u32]) -> u32 {
    match *n {
        [hour, demand, losses, bought, price, ..] if enters => capi::day_book::naomhral_book_enter(
            book, hour, demand, losses, bought, price,
        ),
        [hour, _, _, _, _, ..] => capi::day_book::naomhral_book_remove(book, hour),
        _ => capi::day_book::naomhral_book_empty(book),
    }
}

fn show<P: Print>(rt: &P, returned: u32, book: [u64; CELLS]) -> io::Result<()> {
    printer::returned(rt, returned)?;
    printer::word(rt, " cells")?;
    printer::numbers(rt, &book[0..5])?;
    printer::numbers(rt, &book[120..124])
}

pub(crate) fn run<P: Print>(
    rt: &P,
    enters: bool,
    room: u32,
    fill: u32,
    numbers: &[u32],
) -> io::Result<()> {
    let mut book = cells(fill);
    let k = lent(room);
    let returned = call(enters, &mut book[..k], numbers);
    show(rt, returned, book)
}
