// What writing refuses: 2 for all four lists first, then the first bad row of each in turn, then a buffer too short.
ghost use Rattle.std.specs.Prelude.{◌≡◌, true, ◌+◌, ◌*◌, ◌≤◌, ◌<◌, length};
ghost use Rattle.refusals.specs.Refusals.{refused_unless};
ghost use Rattle.sheet.specs.Asking.{rows_in};
ghost use Rattle.writing.specs.Lists.{given};
ghost use Rattle.writing.specs.Numbers.{counts_in};
ghost use Rattle.writing.specs.Judged.{lists_good, agent_listed, boundary_listed, plant_listed};
ghost use Rattle.writing.specs.Judged.{contract_listed, row_listed, section_listed, write_verdict};

use super::lists::{self, Lists};
use limits::{Agent, Boundary, Contract, Plant};
use refusals::{Refusal, Verdict};

// Refusal 2 is given where this is false.
fn lists_good(l: Lists<'_>) -> bool
    ensures { result ≡ lists_good
        (given l.entry) }
{
    let c = lists::counts_in(l);
    limits::few(c.agents, c.boundaries, c.plants, c.contracts)
        & (l.boundaries.len() % 4 == 0)
        & (l.plants.len() % 5 == 0)
        & (l.contracts.len() % 5 == 0)
}

#[tactic(auto, unfolding(crate::specs::Judged::agent_listed))]
fn agent_listed(agents: &[u32], i: usize) -> Verdict
    requires { (i < length agents.now) × (i < 4294967296) }
    ensures { result ≡ agent_listed agents.now i }
{
    refusals::refuse_unless(
        rows::agent_good(lists::agent_in(agents, i)),
        Refusal::AGENT,
        i as u32,
    )
}

#[tactic(auto, unfolding(crate::specs::Judged::boundary_listed))]
fn boundary_listed(agents: &[u32], boundaries: &[u32], i: usize) -> Verdict
    requires { (4 * i + 4 ≤ length boundaries.now) × (i < 4294967296) }
    ensures { result ≡ boundary_listed agents.now boundaries.now i }
{
    let b = lists::boundary_in(boundaries, i);
    refusals::refuse_unless(
        rows::boundary_good(lists::kind_in(agents, b.agent), b),
        Refusal::BOUNDARY,
        i as u32,
    )
}

#[tactic(auto, unfolding(crate::specs::Judged::plant_listed))]
fn plant_listed(agents: &[u32], plants: &[u32], i: usize) -> Verdict
    requires { (5 * i + 5 ≤ length plants.now) × (i < 4294967296) }
    ensures { result ≡ plant_listed agents.now plants.now i }
{
    let p = lists::plant_in(plants, i);
    refusals::refuse_unless(
        rows::plant_good(lists::kind_in(agents, p.agent), p),
        Refusal::PLANT,
        i as u32,
    )
}

#[tactic(auto, unfolding(crate::specs::Judged::contract_listed))]
fn contract_listed(agents: &[u32], contracts: &[u32], i: usize) -> Verdict
    requires { (5 * i + 5 ≤ length contracts.now) × (i < 4294967296) }
    ensures { result ≡ contract_listed agents.now contracts.now i }
{
    let k = lists::contract_in(contracts, i);
    let seller = lists::kind_in(agents, k.seller);
    let buyer = lists::kind_in(agents, k.buyer);
    refusals::refuse_unless(
        rows::contract_good(seller, buyer, k),
        Refusal::CONTRACT,
        i as u32,
    )
}

// Row i of a section.
#[tactic(auto, unfolding(crate::specs::Judged::row_listed, sheet::specs::Asking::rows_in))]
fn row_listed(l: Lists<'_>, section: u32, i: usize) -> Verdict
    requires { (i < rows_in (counts_in (given l)) section) × (i < 4294967296) }
    ensures { result ≡ row_listed
        (given l.entry) section i }
{
    match section {
        Agent::SECTION => agent_listed(l.agents, i),
        Boundary::SECTION => boundary_listed(l.agents, l.boundaries, i),
        Plant::SECTION => plant_listed(l.agents, l.plants, i),
        Contract::SECTION => contract_listed(l.agents, l.contracts, i),
        _ => Ok(()),
    }
}

// The n rows of a section: the first bad one ends it.
fn section_listed(l: Lists<'_>, section: u32, n: usize) -> Verdict
    requires { (lists_good (given l) ≡ true)
        × (n ≡ rows_in (counts_in (given l)) section) }
    ensures { result ≡ section_listed
        (given l.entry) section }
{
    for i in 0..n {
        row_listed(l, section, i)?;
    }
    Ok(())
}

// What writing into `room` bytes answers.
#[tactic(auto, using(crate::proofs::Good::lists_small), unfolding(crate::specs::Judged::write_verdict, sheet::specs::Asking::rows_in))]
pub(crate) fn write_verdict(l: Lists<'_>, room: usize) -> Verdict
    ensures { result ≡ write_verdict
        (given l.entry) room }
{
    let good = lists_good(l);
    refusals::refuse_unless(good, Refusal::LAYOUT, 0)?;
    let c = lists::counts_in(l);
    section_listed(l, Agent::SECTION, c.agents)?;
    section_listed(l, Boundary::SECTION, c.boundaries)?;
    section_listed(l, Plant::SECTION, c.plants)?;
    section_listed(l, Contract::SECTION, c.contracts)?;
    refusals::refuse_unless(lists::size(c) <= room, Refusal::ROOM, 0)
}
