// Where a statement differs from our own settlement: a line a cell.
ghost use Rattle.std.specs.Prelude.{◌<◌};
ghost use Rattle.limits.specs.Limits.{most_agents};

use channels::{say, say_signed};
use limits::{Agent, Contract, Plant};
use std::io;

// A statement of an hour, in lists that hold 0 past the sheet's rows.
#[derive(Clone, Copy)]
pub(crate) struct Stated<'a> {
    pub price: u32,
    pub figures: &'a [u32; Agent::CELLS * Agent::MOST],
    pub money: &'a [i64; Agent::MOST],
    pub schedule: &'a [u32],
    pub amounts: &'a [u32],
}

fn say_pair<P: Print>(rt: &P, ours: u32, theirs: u32) -> io::Result<()> {
    print!(rt; " ours {ours} theirs {theirs}\n")
}

fn say_price<P: Print>(rt: &P, ours: u32, theirs: u32) -> io::Result<()> {
    if ours == theirs {
        return Ok(());
    }
    say(rt, b"price")?;
    say_pair(rt, ours, theirs)
}

// The six figures of an agent's line, in their order.
fn name(k: usize) -> &'static str {
    match k {
        0 => "share",
        1 => "own",
        2 => "import",
        3 => "contracted",
        4 => "bought",
        _ => "sold",
    }
}

fn say_figure<P: Print>(rt: &P, a: usize, k: usize, ours: u32, theirs: u32) -> io::Result<()> {
    if ours == theirs {
        return Ok(());
    }
    print!(rt; "agent {a} {}", name(k))?;
    say_pair(rt, ours, theirs)
}

fn say_figures<P: Print>(
    rt: &P,
    a: usize,
    ours: &[u32; Agent::CELLS * Agent::MOST],
    theirs: &[u32; Agent::CELLS * Agent::MOST],
) -> io::Result<()>
    requires { a < most_agents }
{
    for k in 0..Agent::CELLS {
        let i = Agent::CELLS * a + k;
        say_figure(rt, a, k, ours[i], theirs[i])?;
    }
    Ok(())
}

fn say_money<P: Print>(rt: &P, a: usize, ours: i64, theirs: i64) -> io::Result<()> {
    if ours == theirs {
        return Ok(());
    }
    print!(rt; "agent {a} money ours")?;
    say_signed(rt, ours)?;
    say(rt, b" theirs")?;
    say_signed(rt, theirs)?;
    say(rt, b"\n")
}

// Each agent's figures and its money.
fn say_agents<P: Print>(rt: &P, ours: Stated<'_>, theirs: Stated<'_>) -> io::Result<()> {
    for a in 0..Agent::MOST {
        say_figures(rt, a, ours.figures, theirs.figures)?;
        say_money(rt, a, ours.money[a], theirs.money[a])?;
    }
    Ok(())
}

// The schedules of plants, and the amounts of contracts: a row has its number between these words.
fn say_rows<P: Print>(
    rt: &P,
    row: &str,
    what: &str,
    ours: &[u32],
    theirs: &[u32],
) -> io::Result<()> {
    for (i, (&ours, &theirs)) in ours.iter().zip(theirs).enumerate() {
        if ours != theirs {
            print!(rt; "{row} {i} {what}")?;
            say_pair(rt, ours, theirs)?;
        }
    }
    Ok(())
}

// Past the sheet's rows, where our lists hold 0 too, nothing differs. An hour that we don't settle has nothing to differ from.
pub(crate) fn say_all<P: Print>(rt: &P, sheet: &[u8], theirs: Stated<'_>) -> io::Result<()> {
    let mut figures = [0u32; Agent::CELLS * Agent::MOST];
    let mut money = [0i64; Agent::MOST];
    let mut schedule = [0u32; Plant::MOST];
    let mut amounts = [0u32; Contract::MOST];
    let r = settle::settle(sheet, &mut figures, &mut money, &mut schedule, &mut amounts);
    if r.number != 0 {
        return Ok(());
    }
    let ours = Stated {
        price: r.price,
        figures: &figures,
        money: &money,
        schedule: &schedule,
        amounts: &amounts,
    };
    say_price(rt, ours.price, theirs.price)?;
    say_agents(rt, ours, theirs)?;
    say_rows(rt, "plant", "schedule", ours.schedule, theirs.schedule)?;
    say_rows(rt, "contract", "amount", ours.amounts, theirs.amounts)
}
