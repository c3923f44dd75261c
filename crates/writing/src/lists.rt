// The four lists by their rows.
ghost use Rattle.std.specs.Prelude.{◌≡◌, ◌+◌, ◌*◌, ◌≤◌, ◌<◌, length};
ghost use Rattle.sums.specs.Lists.{at};
ghost use Rattle.sheet.specs.Reading.{trailer_start, sheet_length};
ghost use Rattle.writing.specs.Lists.{given};
ghost use Rattle.writing.specs.Numbers.{counts_in, agent_in, boundary_in, plant_in, contract_in};

use limits::{Agent, Boundary, Contract, Plant};
use sheet::Counts;

// The lists that a sheet is written from.
#[derive(Clone, Copy)]
pub(crate) struct Lists<'a> {
    pub(crate) agents: &'a [u32],
    pub(crate) boundaries: &'a [u32],
    pub(crate) plants: &'a [u32],
    pub(crate) contracts: &'a [u32],
}

// How many rows each list has.
pub(crate) fn counts_in(l: Lists<'_>) -> Counts
    ensures { result ≡ counts_in
        (given l.entry) }
{
    Counts {
        agents: l.agents.len(),
        boundaries: l.boundaries.len() / 4,
        plants: l.plants.len() / 5,
        contracts: l.contracts.len() / 5,
    }
}

// How long a sheet with these counts is.
pub(crate) fn size(c: Counts) -> usize
    requires { trailer_start c < 65536 }
    ensures { result ≡ sheet_length c }
{
    16 * (c.agents + c.boundaries + c.plants + c.contracts) + 32
}

// The kind of agent a, 0 where there is no such agent.
pub(crate) fn kind_in(agents: &[u32], a: u32) -> u32
    ensures { result ≡ at agents.now a }
{
    agents.get(a as usize).copied().unwrap_or(0)
}

pub(crate) fn agent_in(l: &[u32], i: usize) -> Agent
    requires { i < length l.now }
    ensures { result ≡ agent_in l.now i }
{
    Agent { kind: l[i] }
}

pub(crate) fn boundary_in(l: &[u32], i: usize) -> Boundary
    requires { 4 * i + 4 ≤ length l.now }
    ensures { result ≡ boundary_in l.now i }
{
    let k = 4 * i;
    Boundary {
        agent: l[k],
        factor: l[k + 1],
        import: l[k + 2],
        export: l[k + 3],
    }
}

pub(crate) fn plant_in(l: &[u32], i: usize) -> Plant
    requires { 5 * i + 5 ≤ length l.now }
    ensures { result ≡ plant_in l.now i }
{
    let k = 5 * i;
    Plant {
        agent: l[k],
        inflexible: l[k + 1],
        must: l[k + 2],
        price: l[k + 3],
        availability: l[k + 4],
    }
}

pub(crate) fn contract_in(l: &[u32], i: usize) -> Contract
    requires { 5 * i + 5 ≤ length l.now }
    ensures { result ≡ contract_in l.now i }
{
    let k = 5 * i;
    Contract {
        seller: l[k],
        buyer: l[k + 1],
        kind: l[k + 2],
        price: l[k + 3],
        quantity: l[k + 4],
    }
}
