// Reads hour sheets from standard input and prints what reading answers to each. An accepted sheet is asked for all its numbers;
// they are written again, and the line says whether the same bytes came out.
// A case is a 32-bit length, the low byte first, and that many bytes.
#![tactic(auto)]

ghost use Rattle.std.specs.Prelude.{◌≤◌, ◌<◌, length};

use limits::{Agent, Boundary, Contract, Plant};
use refusals::Refusal;
use sheet::{Counts, Fields};
use std::io;

// More cases than these are not looked at.
const MOST_CASES: u64 = 1000000;

fn print_refused<P: Print>(rt: &P, r: Refusal) -> io::Result<()> {
    print!(rt; "refused {} {}\n", r.number, r.place)
}

// Number j of a row.
fn field(f: Fields, j: usize) -> u32 {
    match j {
        0 => f.first,
        1 => f.second,
        2 => f.third,
        3 => f.fourth,
        _ => f.fifth,
    }
}

// The numbers of a section, so many to a row, each asked for by itself.
fn take_numbers(s: &[u8], section: u32, width: usize, out: &mut [u32])
    requires { (0 < width) × (length out.old ≤ 1280) }
{
    for (k, cell) in out.iter_mut().enumerate() {
        let f = sheet::fields_in(sheet::asking::ask_row(s, section, (k / width) as u32));
        *cell = field(f, k % width);
    }
}

// Whether an accepted sheet's numbers, written, are the sheet.
fn same_again(s: &[u8], c: Counts) -> bool {
    let mut agents = [0u32; Agent::MOST];
    let mut boundaries = [0u32; 4 * Boundary::MOST];
    let mut plants = [0u32; 5 * Plant::MOST];
    let mut contracts = [0u32; 5 * Contract::MOST];
    let agents = &mut agents[..c.agents.min(Agent::MOST)];
    let boundaries = &mut boundaries[..4 * c.boundaries.min(Boundary::MOST)];
    let plants = &mut plants[..5 * c.plants.min(Plant::MOST)];
    let contracts = &mut contracts[..5 * c.contracts.min(Contract::MOST)];
    take_numbers(s, 1, 1, agents);
    take_numbers(s, 2, 4, boundaries);
    take_numbers(s, 3, 5, plants);
    take_numbers(s, 4, 5, contracts);
    let mut out = [0u8; Counts::LONGEST];
    match writing::write(agents, boundaries, plants, contracts, &mut out) {
        Ok(n) => n == s.len() && out.starts_with(s),
        Err(_) => false,
    }
}

fn print_accepted<P: Print>(rt: &P, s: &[u8], c: Counts) -> io::Result<()> {
    print!(rt;
        "accepted {} {} {} {}",
        c.agents, c.boundaries, c.plants, c.contracts
    )?;
    if same_again(s, c) {
        rt.print(" same\n")
    } else {
        rt.print(" differs\n")
    }
}

fn print_case<P: Print>(rt: &P, case: u64, s: &[u8]) -> io::Result<()> {
    print!(rt; "case {case}\n")?;
    match sheet::read(s) {
        Ok(c) => print_accepted(rt, s, c),
        Err(r) => print_refused(rt, r),
    }
}

fn main(rt: HostRuntime) -> io::Result<()> {
    let mut buf = [0u8; 65536];
    let mut from = rt.reader();
    for number in 0..MOST_CASES {
        let case = input::cases::read_case(&mut from, &mut buf);
        let Ok(Some(n)) = case else {
            input::cases::complain(&rt, case);
            break;
        };
        print_case(&rt, number, &buf[..n])?;
    }
    Ok(())
}
