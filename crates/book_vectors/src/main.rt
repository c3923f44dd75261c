// Reads calls on day books from standard input and prints each call's answer and the four totals after it.
// A book is a count and that many calls; a call is six 32-bit numbers, the low byte first: 1 to enter or 2 to remove, the hour, demand,
// losses, bought and price. Each call is also made on cells by the functions for C: an answer or totals other than the book's, or a
// cell behind the book that was written, are told in a line that no expected answer has.
#![tactic(auto)]

ghost use Rattle.book.specs.Book.{Kept};

use book::{Book, Outcome, Totals};
use input::cases::Broken;
use refusals::Verdict;
use std::io;
use std::io::Read;

// What stands behind the book's cells, so that a write can be seen.
const UNUSED: u64 = 11936128518282651045;

// A call, made on a book.
fn called(call: &[u32; 6], held: Book) -> Outcome
    requires { Kept held }
    ensures { Kept result.book }
{
    let [what, hour, demand, losses, bought, price] = *call;
    if what == 2 {
        return book::without_hour(held, hour);
    }
    book::with_hour(held, hour, demand, losses, bought, price)
}

// The same call, on cells.
fn cells_called(call: &[u32; 6], cells: &mut [u64; 126]) -> u32 {
    let [what, hour, demand, losses, bought, price] = *call;
    if what == 2 {
        return capi::day_book::naomhral_book_remove(cells, hour);
    }
    capi::day_book::naomhral_book_enter(cells, hour, demand, losses, bought, price)
}

// The number that an answer is told by.
fn number_told(v: Verdict) -> u32 {
    match v {
        Ok(()) => 0,
        Err(r) => r.number,
    }
}

// Whether the cells hold these totals, and the two behind the book are as they were.
fn cells_agree(cells: &[u64; 126], t: Totals) -> bool {
    (cells[120] == t.demand)
        & (cells[121] == t.losses)
        & (cells[122] == t.bought)
        & (cells[123] == t.money)
        & (cells[124] == UNUSED)
        & (cells[125] == UNUSED)
}

// The answer's number and place, 0 and 0 where all is fine.
fn print_answer<P: Print>(rt: &P, v: Verdict) -> io::Result<()> {
    match v {
        Ok(()) => rt.print("0 0"),
        Err(r) => print!(rt; "{} {}", r.number, r.place),
    }
}

fn print_totals<P: Print>(rt: &P, t: Totals) -> io::Result<()> {
    print!(rt; " {} {} {} {}\n", t.demand, t.losses, t.bought, t.money)
}

// The answer to a call, its totals, and that the cells tell otherwise, where they do.
fn print_call<P: Print>(rt: &P, v: Verdict, t: Totals, agree: bool) -> io::Result<()> {
    print_answer(rt, v)?;
    print_totals(rt, t)?;
    if !agree {
        rt.print("the cells tell otherwise\n")?;
    }
    Ok(())
}

// The next n calls, made in turn from an empty book; false where the input ends within them.
fn run_calls<P: Print, R: Read>(rt: &P, from: &mut R, n: u32) -> io::Result<bool> {
    let mut held = book::empty();
    let mut cells = [UNUSED; 126];
    capi::day_book::naomhral_book_empty(&mut cells);
    let mut call = [0u32; 6];
    for _ in 0..n {
        if !input::cases::read_numbers(from, &mut call) {
            return Ok(false);
        }
        let out = called(&call, held);
        let number = cells_called(&call, &mut cells);
        let verdict = out.verdict;
        let next = out.book;
        let totals = next.totals;
        let agree = (number == number_told(verdict)) & cells_agree(&cells, totals);
        print_call(rt, verdict, totals, agree)?;
        held = next;
    }
    Ok(true)
}

// The next book, and whether to go on.
fn run_book<P: Print + Eprint, R: Read>(rt: &P, from: &mut R, case: u64) -> io::Result<bool> {
    let Ok(Some(n)) = input::cases::next_number(from) else {
        return Ok(false);
    };
    print!(rt; "book {case}\n")?;
    if !run_calls(rt, from, n)? {
        input::cases::complain(rt, Err(Broken::Cut));
        return Ok(false);
    }
    Ok(true)
}

fn main(rt: HostRuntime) -> io::Result<()> {
    let mut from = rt.reader();
    for case in 0..1000000u64 {
        if !run_book(&rt, &mut from, case)? {
            break;
        }
    }
    Ok(())
}
