// The library's own functions, each called as any crate calls it; the line says what it answers.
use crate::printer;
use hour::Summary;
use refusals::Refusal;
use sheet::{Counts, Fields};
use std::io;

fn counts<P: Print>(rt: &P, c: Counts) -> io::Result<()> {
    printer::word(rt, "accepted")?;
    printer::number(rt, c.agents as u64)?;
    printer::number(rt, c.boundaries as u64)?;
    printer::number(rt, c.plants as u64)?;
    printer::number(rt, c.contracts as u64)
}

pub(crate) fn read<P: Print>(rt: &P, bytes: &[u8]) -> io::Result<()> {
    match sheet::read(bytes) {
        Ok(c) => counts(rt, c),
        Err(why) => printer::refused(rt, why),
    }
}

fn fields<P: Print>(rt: &P, f: Fields) -> io::Result<()> {
    printer::word(rt, " row")?;
    printer::numbers(rt, &[f.first, f.second, f.third, f.fourth, f.fifth])
}

pub(crate) fn ask_row<P: Print>(rt: &P, bytes: &[u8], section: u32, row: u32) -> io::Result<()> {
    let answer = sheet::asking::ask_row(bytes, section, row);
    printer::verdict(rt, sheet::verdict_in(answer))?;
    fields(rt, sheet::fields_in(answer))
}

pub(crate) fn ask_section<P: Print>(rt: &P, bytes: &[u8], section: u32) -> io::Result<()> {
    printer::verdict(rt, sheet::asking::ask_section(bytes, section))?;
    printer::word(rt, " section")?;
    printer::numbers(rt, sheet::asking::section(bytes, section))
}

fn done<P: Print>(rt: &P, n: usize) -> io::Result<()> {
    printer::word(rt, "done")?;
    printer::number(rt, n as u64)
}

pub(crate) fn write<P: Print>(
    rt: &P,
    agents: &[u32],
    boundaries: &[u32],
    plants: &[u32],
    contracts: &[u32],
    out: &mut [u8],
) -> io::Result<()> {
    match writing::write(agents, boundaries, plants, contracts, out) {
        Ok(n) => done(rt, n),
        Err(why) => printer::refused(rt, why),
    }
}

pub(crate) fn share<P: Print>(
    rt: &P,
    amount: u32,
    weights: &[u32],
    out: &mut [u32],
) -> io::Result<()> {
    printer::verdict(rt, share::share(amount, weights, out))
}

pub(crate) fn dispatch<P: Print>(
    rt: &P,
    offers: &[u32],
    available: &[u32],
    demand: u32,
    out: &mut [u32],
) -> io::Result<()> {
    printer::verdict(rt, dispatch::dispatch(offers, available, demand, out))
}

pub(crate) fn price<P: Print>(
    rt: &P,
    offers: &[u32],
    flags: &[u32],
    scheduled: &[u32],
) -> io::Result<()> {
    printer::word(rt, "price")?;
    printer::number(rt, u64::from(dispatch::price(offers, flags, scheduled)))
}

pub(crate) fn assign<P: Print>(
    rt: &P,
    section: &[u8],
    demands: &[u32],
    out: &mut [u32],
) -> io::Result<()> {
    printer::verdict(rt, contracts::assign(section, demands, out))
}

pub(crate) fn settle<P: Print>(
    rt: &P,
    bytes: &[u8],
    figures: &mut [u32],
    money: &mut [i64],
    schedule: &mut [u32],
    amounts: &mut [u32],
) -> io::Result<()> {
    let s = settle::settle(bytes, figures, money, schedule, amounts);
    printer::word(rt, "summary")?;
    printer::numbers(rt, &[s.number, s.place, s.price, s.demand, s.losses])
}

fn printed<P: Print>(rt: &P, p: Result<usize, Refusal>) -> io::Result<()> {
    match p {
        Ok(n) => done(rt, n),
        Err(why) => printer::refused(rt, why),
    }
}

// The page of an hour whose price, demand and losses are x, x and y. Money is lent as the room is, since the check has no call that
// takes one list of a lent struct to read and another to write.
pub(crate) fn print<P: Print>(
    rt: &P,
    x: u32,
    y: u32,
    kinds: &[u32],
    figures: &[u32],
    money: &mut [i64],
    out: &mut [u8],
) -> io::Result<()> {
    let s = Summary {
        number: 0,
        place: 0,
        price: x,
        demand: x,
        losses: y,
    };
    printed(rt, printing::print(s, kinds, figures, money, out))
}

pub(crate) fn page<P: Print>(rt: &P, bytes: &[u8], out: &mut [u8]) -> io::Result<()> {
    printed(rt, page::page(bytes, out))
}
