// The lines of a sheet's text, judged and counted.
ghost use Rattle.std.specs.Prelude.{◌≡◌, ◌<◌, ◌≤◌};
ghost use Rattle.typing.specs.Rows.{wants, sheet_fault, counted_in, within_rooms, scan_row, scan_line, scanned};
ghost use Rattle.typing.specs.Steps.{Scannable};

use super::Scan;
use limits::{Agent, Boundary, Contract, Plant};
use sheet::Counts;
use text::{Fault, Line};

// How many numbers a row of section k has.
#[tactic(auto, unfolding(crate::specs::Rows::wants))]
pub(crate) fn wanted(k: u32) -> usize
    ensures { (result ≡ wants k) × (result ≤ 5) }
{
    match k {
        Agent::SECTION => 1,
        Boundary::SECTION => 4,
        Plant::SECTION | Contract::SECTION => 5,
        _ => 0,
    }
}

#[tactic(auto, unfolding(crate::specs::Rows::sheet_fault))]
fn sheet_fault(l: Line) -> Option<Fault>
    ensures { result ≡ sheet_fault l }
{
    text::line_fault(l, l.word <= Contract::SECTION, wanted(l.word))
}

#[tactic(auto, unfolding(crate::specs::Rows::counted_in, sums::specs::Sums::pick))]
fn counted(c: Counts, k: u32) -> Counts
    requires { (c.agents < 18446744073709551615) × (c.boundaries < 18446744073709551615)
        × (c.plants < 18446744073709551615) × (c.contracts < 18446744073709551615) }
    ensures { result ≡ counted_in c k }
{
    Counts {
        agents: c.agents + usize::from(k == Agent::SECTION),
        boundaries: c.boundaries + usize::from(k == Boundary::SECTION),
        plants: c.plants + usize::from(k == Plant::SECTION),
        contracts: c.contracts + usize::from(k == Contract::SECTION),
    }
}

fn within(c: Counts, m: Counts) -> bool
    ensures { result ≡ within_rooms c m }
{
    (c.agents <= m.agents)
        & (c.boundaries <= m.boundaries)
        & (c.plants <= m.plants)
        & (c.contracts <= m.contracts)
}

#[tactic(auto, unfolding(crate::specs::Rows::scan_row))]
fn scan_row(j: Scan, l: Line, rooms: Counts) -> Scan
    requires { Scannable j }
    ensures { result ≡ scan_row rooms j l }
{
    let counts = counted(j.counts, l.word);
    let rows = if within(counts, rooms) {
        None
    } else {
        Some(Fault::Rows)
    };
    Scan {
        line: j.line + 1,
        fault: sheet_fault(l).or(rows),
        counts,
    }
}

#[tactic(auto, unfolding(crate::specs::Rows::scan_line))]
fn scan_line(j: Scan, s: &[u8], rooms: Counts) -> Scan
    requires { Scannable j }
    ensures { result ≡ scan_line rooms j s.now }
{
    if j.fault.is_some() {
        return j;
    }
    scan_row(j, text::read_line(s), rooms)
}

// How many rows of each section a text has, or its first line that is wrong.
pub(crate) fn scan(s: &[u8], rooms: Counts) -> Scan
    ensures { result ≡ scanned rooms s.now }
{
    let mut j = Scan {
        line: 0,
        fault: None,
        counts: Counts {
            agents: 0,
            boundaries: 0,
            plants: 0,
            contracts: 0,
        },
    };
    for line in s.split(|b| *b == b'\n') {
        j = scan_line(j, line, rooms);
    }
    j
}
