// Reads sheets from standard input, settles each, and prints its page and its lists.
// A case is a 32-bit length, the low byte first, and that many bytes.
#![tactic(auto)]

ghost use Rattle.std.specs.Prelude.{◌≤◌, length};
ghost use Rattle.limits.specs.Limits.{most_agents};

use hour::Summary;
use input::cases::{Broken, Case};
use limits::{Agent, Contract, Plant};
use std::io;

// More cases than these are not looked at.
const MOST_CASES: u64 = 1000000;

fn print_list<P: Print>(rt: &P, list: &[u32]) -> io::Result<()> {
    for x in list {
        print!(rt; " {x}")?;
    }
    rt.print("\n")
}

// Every sixth figure is a loss share.
fn print_shares<P: Print>(rt: &P, figures: &[u32]) -> io::Result<()> {
    for share in figures.iter().step_by(Agent::CELLS) {
        print!(rt; " {share}")?;
    }
    rt.print("\n")
}

fn fill_kinds(bytes: &[u8], kinds: &mut [u32]) {
    for (a, kind) in kinds.iter_mut().enumerate() {
        *kind = rows::agent_of(octets::row_at(bytes, a)).kind;
    }
}

// The page of the desk program: the hour with a line for each agent, or the refusal.
fn print_page<P: Print>(
    rt: &P,
    s: Summary,
    bytes: &[u8],
    figures: &[u32],
    money: &[i64],
) -> io::Result<()>
    requires { length money.now ≤ most_agents }
{
    let mut all = [0u32; Agent::MOST];
    let kinds = &mut all[..money.len()];
    fill_kinds(bytes, kinds);
    let mut page = [0u8; 65536];
    match printing::print(s, kinds, figures, money, &mut page) {
        Ok(k) if k <= page.len() => rt.write_all(&page[..k]),
        _ => Ok(()),
    }
}

fn print_lists<P: Print>(
    rt: &P,
    figures: &[u32],
    schedule: &[u32],
    amounts: &[u32],
) -> io::Result<()> {
    rt.print("shares")?;
    print_shares(rt, figures)?;
    rt.print("schedule")?;
    print_list(rt, schedule)?;
    rt.print("amounts")?;
    print_list(rt, amounts)
}

// Settles one sheet and prints the answer.
fn run_case<P: Print>(rt: &P, bytes: &[u8]) -> io::Result<()> {
    let mut figures = [0u32; Agent::CELLS * Agent::MOST];
    let mut money = [0i64; Agent::MOST];
    let mut schedule = [0u32; Plant::MOST];
    let mut amounts = [0u32; Contract::MOST];
    let s = settle::settle(bytes, &mut figures, &mut money, &mut schedule, &mut amounts);
    if 0 < s.number {
        return print_page(rt, s, bytes, &[], &[]);
    }
    let Ok(c) = sheet::read(bytes) else {
        return Ok(());
    };
    let figures = &figures[..Agent::CELLS * c.agents];
    print_page(rt, s, bytes, figures, &money[..c.agents])?;
    print_lists(rt, figures, &schedule[..c.plants], &amounts[..c.contracts])
}

// Tells on standard error why there is no further case, unless the input just ended.
fn complain<E: Eprint>(rt: &E, case: Case) {
    let _ = match case {
        Err(Broken::Cut) => rt.eprint(
            "hour_vectors: the input ends within a case, or a case is longer than 65536 bytes\n",
        ),
        Err(Broken::Failed(why)) => eprint!(rt; "hour_vectors: the input cannot be read: {why}\n"),
        Ok(_) => Ok(()),
    };
}

fn main(rt: HostRuntime) -> io::Result<()> {
    let mut buf = [0u8; 65536];
    let mut from = rt.reader();
    for number in 0..MOST_CASES {
        let case = input::cases::read_case(&mut from, &mut buf);
        let Ok(Some(n)) = case else {
            complain(&rt, case);
            break;
        };
        print!(rt; "case {number}\n")?;
        run_case(&rt, &buf[..n])?;
    }
    Ok(())
}
