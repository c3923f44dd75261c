// Reads days from standard input, settles each by the function for C, and prints each hour's summary and, of a settled one, its lists.
// A day is 24 lengths, a count and that many bytes, and the lengths of the four lent lists. Numbers have 32 bits, the low byte first.
// A cell that was not to be written and was is told in a line that no expected answer has.
#![tactic(auto)]

ghost use Rattle.std.specs.Prelude.{◌≤◌};

use day::{AMOUNTS, FIGURES, HOURS, MONEY, SCHEDULE};
use hour::Summary;
use limits::Agent;
use sheet::Counts;
use std::io;
use std::io::Read;

// What stands in the lent lists before, so that a write can be seen.
const CELL: u32 = 2779096485;

const OWED: i64 = 6510615555426900570;

// More days than these are not looked at.
const MOST_DAYS: u64 = 1000000;

// The lent lists, behind a call.
#[derive(Clone, Copy)]
struct Lists<'a> {
    figures: &'a [u32],
    money: &'a [i64],
    schedule: &'a [u32],
    amounts: &'a [u32],
    summaries: &'a [u32],
}

// A day's sheets one behind another, with the length of each.
#[derive(Clone, Copy)]
struct Day<'a> {
    lengths: &'a [u32; HOURS],
    sheets: &'a [u8],
}

// The next number as a count, at most so many.
fn next_size<R: Read>(from: &mut R, most: usize) -> usize
    ensures { result ≤ most }
{
    let Ok(Some(x)) = input::cases::next_number(from) else {
        return 0;
    };
    most.min(x as usize)
}

// A number with its sign, as the last of an agent's line on a page: behind `hour 0 0 0`, a line end and `0 1 0 0 0 0 0 `.
fn print_owed<P: Print>(rt: &P, x: i64) -> io::Result<()> {
    let none = Summary {
        number: 0,
        place: 0,
        price: 0,
        demand: 0,
        losses: 0,
    };
    let kinds = [1u32];
    let figures = [0u32; Agent::CELLS];
    let money = [x];
    let mut text = [0u8; 64];
    match printing::print(none, &kinds, &figures, &money, &mut text) {
        Ok(n) if 26 < n && n <= 64 => {
            rt.print(" ")?;
            rt.write_all(&text[25..n - 1])
        }
        _ => Ok(()),
    }
}

// Cell k of a list, and past the end as cells were before the call.
fn cell<T: Copy>(list: &[T], k: usize, before: T) -> T {
    if k < list.len() { list[k] } else { before }
}

// n cells from a on.
fn print_cells<P: Print>(rt: &P, list: &[u32], a: usize, n: usize) -> io::Result<()>
    requires { (a ≤ 1000000) × (n ≤ 1000000) }
{
    for i in 0..n {
        print!(rt; " {}", cell(list, a + i, CELL))?;
    }
    rt.print("\n")
}

fn print_money<P: Print>(rt: &P, list: &[i64], a: usize, n: usize) -> io::Result<()>
    requires { (a ≤ 1000000) × (n ≤ 1000000) }
{
    for i in 0..n {
        print_owed(rt, cell(list, a + i, OWED))?;
    }
    rt.print("\n")
}

// Whether the cells from a to e were not written.
fn kept<T: Copy + PartialEq>(list: &[T], a: usize, e: usize, before: T) -> bool {
    list.iter().take(e).skip(a).all(|x| *x == before)
}

// The rows of an hour that has cells in the lists; none of a refused one.
fn counts(sheet: &[u8], settled: bool) -> Counts
    ensures { (result.agents ≤ 256) × (result.plants ≤ 256) × (result.contracts ≤ 256) }
{
    match sheet::read(sheet) {
        Ok(c) if settled && c.agents <= 256 && c.plants <= 256 && c.contracts <= 256 => c,
        _ => Counts {
            agents: 0,
            boundaries: 0,
            plants: 0,
            contracts: 0,
        },
    }
}

// The n bytes from a on, or none where they are not there.
fn stretch(bytes: &[u8], a: usize, n: usize) -> &[u8] {
    if a <= bytes.len() && n <= bytes.len() - a {
        &bytes[a..a + n]
    } else {
        &[]
    }
}

// The cells of an hour's parts that its rows ask for.
fn print_parts<P: Print>(rt: &P, h: usize, c: Counts, lists: Lists<'_>) -> io::Result<()>
    requires { (h ≤ 24) × (c.agents ≤ 256) × (c.plants ≤ 256) × (c.contracts ≤ 256) }
{
    rt.print("figures")?;
    print_cells(rt, lists.figures, FIGURES * h, Agent::CELLS * c.agents)?;
    rt.print("money")?;
    print_money(rt, lists.money, MONEY * h, c.agents)?;
    rt.print("schedule")?;
    print_cells(rt, lists.schedule, SCHEDULE * h, c.plants)?;
    rt.print("amounts")?;
    print_cells(rt, lists.amounts, AMOUNTS * h, c.contracts)
}

// Whether all else in the parts is as it was.
fn parts_kept(h: usize, c: Counts, lists: Lists<'_>) -> bool
    requires { (h ≤ 24) × (c.agents ≤ 256) × (c.plants ≤ 256) × (c.contracts ≤ 256) }
{
    let f = FIGURES * h;
    let m = MONEY * h;
    let s = SCHEDULE * h;
    let t = AMOUNTS * h;
    kept(
        lists.figures,
        f + Agent::CELLS * c.agents,
        f + FIGURES,
        CELL,
    ) && kept(lists.money, m + c.agents, m + MONEY, OWED)
        && kept(lists.schedule, s + c.plants, s + SCHEDULE, CELL)
        && kept(lists.amounts, t + c.contracts, t + AMOUNTS, CELL)
}

// A line that no expected answer has, unless the lists were kept.
fn tell_unless<P: Print>(rt: &P, kept: bool) -> io::Result<()> {
    if kept {
        Ok(())
    } else {
        rt.print("written where nothing was to be\n")
    }
}

fn print_hour<P: Print>(rt: &P, h: usize, sheet: &[u8], lists: Lists<'_>) -> io::Result<()>
    requires { h ≤ 24 }
{
    rt.print(h)?;
    print_cells(rt, lists.summaries, 5 * h, 5)?;
    let settled = cell(lists.summaries, 5 * h, CELL) == 0;
    let c = counts(sheet, settled);
    if settled {
        print_parts(rt, h, c, lists)?;
    }
    tell_unless(rt, parts_kept(h, c, lists))
}

fn print_hours<P: Print>(rt: &P, day: Day<'_>, lists: Lists<'_>) -> io::Result<()> {
    let mut start = 0;
    for h in 0..HOURS {
        let n = day.lengths[h] as usize;
        let sheet = stretch(day.sheets, start, n);
        print_hour(rt, h, sheet, lists)?;
        start = start.saturating_add(n);
    }
    Ok(())
}

// Whether nothing was written behind the parts of 24 hours.
fn rest_kept(lists: Lists<'_>) -> bool {
    kept(lists.figures, FIGURES * HOURS, lists.figures.len(), CELL)
        && kept(lists.money, MONEY * HOURS, lists.money.len(), OWED)
        && kept(lists.schedule, SCHEDULE * HOURS, lists.schedule.len(), CELL)
        && kept(lists.amounts, AMOUNTS * HOURS, lists.amounts.len(), CELL)
}

// Settles one day into the fronts of four lists, as long as the input says, and prints the answer.
fn run_day<P: Print, R: Read>(rt: &P, from: &mut R, number: u64, day: Day<'_>) -> io::Result<()> {
    let mut figures = [CELL; 10240];
    let mut money = [OWED; 2048];
    let mut schedule = [CELL; 2048];
    let mut amounts = [CELL; 8192];
    let mut summaries = [CELL; 120];
    print!(rt; "day {number}\n")?;
    let f = next_size(from, figures.len());
    let m = next_size(from, money.len());
    let s = next_size(from, schedule.len());
    let t = next_size(from, amounts.len());
    capi::whole_day::naomhral_day(
        day.sheets,
        day.lengths,
        &mut figures[..f],
        &mut money[..m],
        &mut schedule[..s],
        &mut amounts[..t],
        &mut summaries,
    );
    let lists = Lists {
        figures: &figures,
        money: &money,
        schedule: &schedule,
        amounts: &amounts,
        summaries: &summaries,
    };
    print_hours(rt, day, lists)?;
    tell_unless(rt, rest_kept(lists))
}

// The next day; false where the input ended.
fn next_day<P: Print + Eprint, R: Read>(
    rt: &P,
    from: &mut R,
    number: u64,
    buf: &mut [u8],
) -> io::Result<bool> {
    let mut lengths = [0u32; HOURS];
    if !input::cases::read_numbers(from, &mut lengths) {
        return Ok(false);
    }
    let n = next_size(from, buf.len());
    let Ok(k) = input::read_all(from, &mut buf[..n]) else {
        return Ok(false);
    };
    if k < n {
        let _ = rt.eprint("day_vectors: the input ends within a day\n");
        return Ok(false);
    }
    let day = Day {
        lengths: &lengths,
        sheets: &buf[..n],
    };
    run_day(rt, from, number, day)?;
    Ok(true)
}

fn main(rt: HostRuntime) -> io::Result<()> {
    let mut buf = [0u8; 65536];
    let mut from = rt.reader();
    for number in 0..MOST_DAYS {
        if !next_day(&rt, &mut from, number, &mut buf)? {
            break;
        }
    }
    Ok(())
}
