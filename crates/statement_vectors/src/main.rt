// Reads statements from standard input, checks each against its sheet by the function for C, and prints the number and the place of
// the answer.
// A statement is a length and a sheet of that many bytes, a price, and figures, money, schedule and amounts, each a count and that many
// cells. Numbers have 32 bits, the low byte first; a cell of money has 64.
#![tactic(auto)]

ghost use Rattle.std.specs.Prelude.{◌<◌, ◌+◌, length};
ghost use Rattle.input.specs.Cases.{GotWithin};

use std::io;
use std::io::Read;

// More statements than these are not looked at.
const MOST_STATEMENTS: u64 = 1000000;

// The number of 64 bits with a sign that these two halves are; 0 for the two least, which no statement has.
fn signed(low: u32, high: u32) -> i64 {
    let x = (u64::from(high) * 4294967296 + u64::from(low)).cast_signed();
    if x < -9223372036854775806 { 0 } else { x }
}

// The next two numbers, the low half first.
fn next_signed<R: Read>(from: &mut R) -> Option<i64> {
    let Ok(Some(low)) = input::cases::next_number(from) else {
        return None;
    };
    let Ok(Some(high)) = input::cases::next_number(from) else {
        return None;
    };
    Some(signed(low, high))
}

fn read_money<R: Read>(from: &mut R, out: &mut [i64]) -> Option<usize>
    ensures { GotWithin result (length out.new) }
{
    let Ok(Some(count)) = input::cases::next_number(from) else {
        return None;
    };
    let n = count as usize;
    if out.len() < n {
        return None;
    }
    for cell in &mut out[..n] {
        *cell = next_signed(from)?;
    }
    Some(n)
}

fn print_answer<P: Print>(rt: &P, number: u64, refusal: u32, place: u32) -> io::Result<()> {
    print!(rt; "statement {number} {refusal} {place}\n")
}

// Reads the lists of a statement of this sheet, checks it, and prints the answer. False where the input ended within it.
fn run_statement<P: Print, R: Read>(
    rt: &P,
    from: &mut R,
    number: u64,
    sheet: &[u8],
) -> io::Result<bool> {
    let mut figures = [0u32; 1024];
    let mut money = [0i64; 1024];
    let mut schedule = [0u32; 1024];
    let mut amounts = [0u32; 1024];
    let Ok(Some(price)) = input::cases::next_number(from) else {
        return Ok(false);
    };
    let Some(f) = input::cases::read_list(from, &mut figures) else {
        return Ok(false);
    };
    let Some(m) = read_money(from, &mut money) else {
        return Ok(false);
    };
    let Some(s) = input::cases::read_list(from, &mut schedule) else {
        return Ok(false);
    };
    let Some(t) = input::cases::read_list(from, &mut amounts) else {
        return Ok(false);
    };
    let mut answer = [0u32; 2];
    capi::naomhral_check(
        sheet,
        price,
        &figures[..f],
        &money[..m],
        &schedule[..s],
        &amounts[..t],
        &mut answer,
    );
    print_answer(rt, number, answer[0], answer[1])?;
    Ok(true)
}

fn main(rt: HostRuntime) -> io::Result<()> {
    let mut buf = [0u8; 65536];
    let mut from = rt.reader();
    for number in 0..MOST_STATEMENTS {
        let Ok(Some(n)) = input::cases::read_case(&mut from, &mut buf) else {
            break;
        };
        let whole = run_statement(&rt, &mut from, number, &buf[..n])?;
        if !whole {
            let _ = rt.eprint("statement_vectors: the input ends within a statement\n");
            break;
        }
    }
    Ok(())
}
