// A case taken apart, called, and its lent lists printed.
ghost use Rattle.std.specs.Prelude.{◌≤◌, ◌<◌, length, IfOk};

use crate::{books, exported, library, printer};
use octets::Words;
use std::io;

// What a case calls and on what: its numbers, its bytes and its four lists.
#[derive(Clone, Copy)]
struct Case<'a> {
    call: u32,
    x: u32,
    y: u32,
    bytes: &'a [u8],
    a: &'a [u32],
    b: &'a [u32],
    c: &'a [u32],
    d: &'a [u32],
}

// The four rows that a case begins with: the call, its two numbers and its bytes, the counts of the lists, the rooms of the lent ones,
// and the rooms of the last two with the case's rows.
#[derive(Clone, Copy)]
struct Head {
    call: Words,
    counts: Words,
    lent: Words,
    more: Words,
}

// The lists that the call is lent.
#[derive(Drop)]
struct Lent<'a> {
    figures: &'a mut [u32],
    money: &'a mut [i64],
    schedule: &'a mut [u32],
    amounts: &'a mut [u32],
    text: &'a mut [u8],
    answer: &'a mut [u32],
}

// A count of a case; none is over 4,096.
fn few(n: u32) -> usize
    ensures { result ≤ 4096 }
{
    n.min(4096) as usize
}

// Number k of the rows from a row on.
fn word(s: &[u8], row: usize, k: usize) -> u32
    requires { k < 65536 }
{
    if 65536 < row {
        return 0;
    }
    let w = octets::row_at(s, row + k / 4);
    [w.first, w.second, w.third, w.fourth][k % 4]
}

// Fills a list with the numbers from a row on.
fn load(s: &[u8], row: usize, list: &mut [u32])
    requires { length list.old ≤ 1300 }
{
    for (k, cell) in list.iter_mut().enumerate() {
        *cell = word(s, row, k);
    }
}

// The n bytes from a row on.
fn part(s: &[u8], row: usize, n: usize) -> &[u8]
    requires { (row < 65536) × (n ≤ 4096) }
{
    let from = 16 * row;
    if s.len() < from + n {
        return s;
    }
    &s[from..from + n]
}

// The room of a lent list that has at most so many cells.
fn room(n: u32, most: usize) -> usize
    ensures { result ≤ most }
{
    most.min(few(n))
}

// The functions of the library by number, those for C from 12 on.
fn call_library<P: Print>(rt: &P, k: Case<'_>, l: &mut Lent<'_>) -> io::Result<()> {
    match k.call {
        1 => library::read(rt, k.bytes),
        2 => library::ask_row(rt, k.bytes, k.x, k.y),
        3 => library::ask_section(rt, k.bytes, k.x),
        4 => library::write(rt, k.a, k.b, k.c, k.d, l.text),
        5 => library::share(rt, k.x, k.a, l.amounts),
        6 => library::dispatch(rt, k.a, k.b, k.x, l.schedule),
        7 => library::price(rt, k.a, k.b, k.c),
        8 => library::assign(rt, k.bytes, k.a, l.amounts),
        9 => library::settle(rt, k.bytes, l.figures, l.money, l.schedule, l.amounts),
        10 => library::print(rt, k.x, k.y, k.a, k.b, l.money, l.text),
        _ => library::page(rt, k.bytes, l.text),
    }
}

fn call_exported<P: Print>(rt: &P, k: Case<'_>, l: &mut Lent<'_>) -> io::Result<()> {
    match k.call {
        12 => exported::share(rt, k.x, k.a, l.amounts),
        13 => exported::read(rt, k.bytes, l.answer),
        14 => exported::write(rt, k.a, k.b, k.c, k.d, l.text, l.answer),
        15 => exported::settle(
            rt, k.bytes, l.figures, l.money, l.schedule, l.amounts, l.answer,
        ),
        16 => exported::page(rt, k.bytes, l.text, l.answer),
        17 => exported::check(
            rt, k.bytes, k.x, k.a, k.b, k.c, l.figures, l.money, l.schedule, l.amounts, l.answer,
        ),
        18 => exported::why_plant(rt, k.bytes, k.x, l.answer),
        19 => exported::why_contract(rt, k.bytes, k.x, l.answer),
        20 => exported::mend(rt, k.bytes, l.text, l.amounts, l.answer),
        21 => exported::entry(rt, k.bytes, k.a, k.b, l.answer),
        _ => books::run(rt, k.call == 22, k.x, k.y, k.a),
    }
}

// A line for each lent list, after the line of the answer.
fn print_lent<P: Print>(rt: &P, l: &Lent<'_>) -> io::Result<()> {
    printer::word(rt, "\nfigures")?;
    printer::numbers(rt, l.figures)?;
    printer::word(rt, "\nmoney")?;
    printer::money(rt, l.money)?;
    printer::word(rt, "\nschedule")?;
    printer::numbers(rt, l.schedule)?;
    printer::word(rt, "\namounts")?;
    printer::numbers(rt, l.amounts)?;
    printer::word(rt, "\ntext")?;
    printer::numbers(rt, l.text)?;
    printer::word(rt, "\nanswer")?;
    printer::numbers(rt, l.answer)?;
    printer::word(rt, "\n")
}

fn call_and_print<P: Print>(rt: &P, k: Case<'_>, l: &mut Lent<'_>) -> io::Result<()> {
    if k.call < 12 {
        call_library(rt, k, l)?;
    } else {
        call_exported(rt, k, l)?;
    }
    print_lent(rt, l)
}

// The lent lists, each of so many cells that all hold 9.
fn lend<P: Print>(rt: &P, k: Case<'_>, h: Head) -> io::Result<()> {
    let mut figures = [9u32; 400];
    let mut money = [9i64; 80];
    let mut schedule = [9u32; 80];
    let mut amounts = [9u32; 300];
    let mut text = [9u8; 512];
    let mut answer = [9u32; 8];
    let mut lists = Lent {
        figures: &mut figures[..room(h.lent.first, 400)],
        money: &mut money[..room(h.lent.second, 80)],
        schedule: &mut schedule[..room(h.lent.third, 80)],
        amounts: &mut amounts[..room(h.lent.fourth, 300)],
        text: &mut text[..room(h.more.first, 512)],
        answer: &mut answer[..room(h.more.second, 8)],
    };
    call_and_print(rt, k, &mut lists)
}

// The row behind n numbers that stand from a row on.
fn after(row: usize, n: u32) -> usize {
    if 65536 < row {
        return row;
    }
    row + few(n).div_ceil(4)
}

// The lists, which stand from a row on.
fn load_and_lend<P: Print>(rt: &P, h: Head, bytes: &[u8], s: &[u8], row: usize) -> io::Result<()> {
    let mut a = [0u32; 1300];
    let mut b = [0u32; 1300];
    let mut c = [0u32; 1300];
    let mut d = [0u32; 1300];
    let n = h.counts;
    let from_b = after(row, n.first);
    let from_c = after(from_b, n.second);
    let from_d = after(from_c, n.third);
    load(s, row, &mut a);
    load(s, from_b, &mut b);
    load(s, from_c, &mut c);
    load(s, from_d, &mut d);
    let case = Case {
        call: h.call.first,
        x: h.call.second,
        y: h.call.third,
        bytes,
        a: &a[..room(n.first, 1300)],
        b: &b[..room(n.second, 1300)],
        c: &c[..room(n.third, 1300)],
        d: &d[..room(n.fourth, 1300)],
    };
    lend(rt, case, h)
}

// How many rows a case says that it has, at least 1.
fn rows_of(n: u32) -> usize
    ensures { (1 ≤ result) × (result ≤ 4097) }
{
    few(n).max(1)
}

// The case that starts at a row; hands back how many rows it has.
pub(crate) fn run<P: Print>(rt: &P, s: &[u8], at: usize) -> io::Result<usize>
    requires { at ≤ 8192 }
    ensures { IfOk result (λ rows. (1 ≤ rows) × (rows ≤ 4097)) }
{
    let h = Head {
        call: octets::row_at(s, at),
        counts: octets::row_at(s, at + 1),
        lent: octets::row_at(s, at + 2),
        more: octets::row_at(s, at + 3),
    };
    let n = few(h.call.fourth);
    let bytes = part(s, at + 4, n);
    load_and_lend(rt, h, bytes, s, at + 4 + n.div_ceil(16))?;
    Ok(rows_of(h.more.third))
}
