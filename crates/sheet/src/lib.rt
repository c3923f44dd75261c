// The hour sheet: reading it.
#![tactic(auto)]

ghost use Rattle.std.specs.Prelude.{◌≡◌, ◌+◌, ◌*◌, ◌≤◌, ◌<◌, length};
ghost use Rattle.sheet.specs.Reading.{trailer_start, length_good, counts_of, counts_good, counts_fit, distances_good, layout_good, read_of};
ghost use Rattle.sheet.specs.Asking.{rows_in, rows_before, section_of, agent_fields, boundary_fields};
ghost use Rattle.sheet.specs.Asking.{plant_fields, contract_fields, verdict_in, fields_in};
ghost use Rattle.sheet.specs.Sections.{Addable, Placeable, kind_in, agent_row_good, boundary_row_good, plant_row_good};
ghost use Rattle.sheet.specs.Sections.{contract_row_good, section_row_good, told_in, section_verdict, rows_verdict, Laid};

use limits::{Agent, Boundary, Contract, Plant};
use octets::Words;
use refusals::{Refusal, Verdict};

pub mod asking;
pub mod counting;
pub mod opened;

// How many rows each section has.
#[derive(Clone, Copy)]
pub struct Counts {
    pub agents: usize,
    pub boundaries: usize,
    pub plants: usize,
    pub contracts: usize,
}

impl Counts {
    // How long a sheet with every row that it may have is, in bytes.
    pub const LONGEST: usize = 16 * (Agent::MOST + Boundary::MOST + Plant::MOST + Contract::MOST)
        + 32;
}

// A row's named fields in byte order, without fillers; the rest 0.
#[derive(Clone, Copy, Default)]
pub struct Fields {
    pub first: u32,
    pub second: u32,
    pub third: u32,
    pub fourth: u32,
    pub fifth: u32,
}

// Refusal 1 is given where this is false.
pub(crate) fn length_good(n: usize) -> bool
    ensures { result ≡ length_good n }
{
    (32 <= n) & (n <= Counts::LONGEST) & (n % 16 == 0)
}

#[tactic(auto, unfolding(crate::specs::Reading::counts_of))]
pub(crate) fn counts_of(s: &[u8]) -> Counts
    requires { 32 ≤ length s.now }
    ensures { (result ≡ counts_of s.now) × Addable result }
{
    let t = s.len() / 16 - 2;
    let u = octets::row_at(s, t);
    let v = octets::row_at(s, t + 1);
    Counts {
        agents: u.second as usize,
        boundaries: u.fourth as usize,
        plants: v.second as usize,
        contracts: v.fourth as usize,
    }
}

fn counts_good(c: Counts) -> bool
    ensures { result ≡ counts_good c }
{
    limits::few(c.agents, c.boundaries, c.plants, c.contracts)
}

// Each distance is the one back from the trailer to the section's first byte.
#[tactic(auto, unfolding(crate::specs::Reading::distances_good))]
fn distances_good(s: &[u8], c: Counts) -> bool
    requires { (32 ≤ length s.now) × Addable c }
    ensures { result ≡ distances_good s.now c }
{
    let t = s.len() / 16 - 2;
    let u = octets::row_at(s, t);
    let v = octets::row_at(s, t + 1);
    let b = c.agents;
    let p = b + c.boundaries;
    let k = p + c.plants;
    let end = k + c.contracts;
    (u.first as usize == 16 * end)
        & (u.third as usize == 16 * (end - b))
        & (v.first as usize == 16 * (end - p))
        & (v.third as usize == 16 * (end - k))
}

fn size(c: Counts) -> usize
    requires { Addable c }
    ensures { result ≡ 16 * trailer_start c + 32 }
{
    16 * (c.agents + c.boundaries + c.plants + c.contracts) + 32
}

// The counts are within their limits, and the length is the one that they ask for.
pub(crate) fn counts_fit(s: &[u8], c: Counts) -> bool
    requires { (c ≡ counts_of s.now) × Addable c }
    ensures { result ≡ counts_fit s.now }
{
    counts_good(c) & (s.len() == size(c))
}

// Refusal 2 is given where this is false.
#[tactic(auto, unfolding(crate::specs::Reading::layout_good))]
fn layout_good(s: &[u8], c: Counts) -> bool
    requires { (32 ≤ length s.now) × (c ≡ counts_of s.now) × Addable c }
    ensures { result ≡ layout_good s.now }
{
    counts_fit(s, c) & distances_good(s, c)
}

// A row's fields as five numbers.
pub(crate) fn agent_fields(a: Agent) -> Fields
    ensures { result ≡ agent_fields a }
{
    Fields {
        first: a.kind,
        ..Fields::default()
    }
}

pub(crate) fn boundary_fields(b: Boundary) -> Fields
    ensures { result ≡ boundary_fields b }
{
    Fields {
        first: b.agent,
        second: b.factor,
        third: b.import,
        fourth: b.export,
        fifth: 0,
    }
}

pub(crate) fn plant_fields(p: Plant) -> Fields
    ensures { result ≡ plant_fields p }
{
    Fields {
        first: p.agent,
        second: p.inflexible,
        third: p.must,
        fourth: p.price,
        fifth: p.availability,
    }
}

pub(crate) fn contract_fields(k: Contract) -> Fields
    ensures { result ≡ contract_fields k }
{
    Fields {
        first: k.seller,
        second: k.buyer,
        third: k.kind,
        fourth: k.price,
        fifth: k.quantity,
    }
}

// How many rows section k has. Sections go by the paper's numbers: callers ask by number, and one that is no section's has an answer.
#[tactic(auto, unfolding(crate::specs::Asking::rows_in))]
pub(crate) fn rows_in(c: Counts, k: u32) -> usize
    ensures { result ≡ rows_in c k }
{
    match k {
        Agent::SECTION => c.agents,
        Boundary::SECTION => c.boundaries,
        Plant::SECTION => c.plants,
        Contract::SECTION => c.contracts,
        _ => 0,
    }
}

// The rows that stand before section k.
#[tactic(auto, unfolding(crate::specs::Asking::rows_before))]
fn rows_before(c: Counts, k: u32) -> usize
    requires { Placeable (trailer_start c) }
    ensures { result ≡ rows_before c k }
{
    match k {
        Agent::SECTION => 0,
        Boundary::SECTION => c.agents,
        Plant::SECTION => c.agents + c.boundaries,
        Contract::SECTION => c.agents + c.boundaries + c.plants,
        _ => 0,
    }
}

// Section k: that stretch of the caller's own bytes, empty where there is no such section.
#[tactic(auto, using(crate::proofs::Sections::section_within), unfolding(crate::specs::Asking::section_of))]
pub(crate) fn part_of(s: &[u8], c: Counts, k: u32) -> &[u8]
    requires { Laid s.now c }
    ensures { result.now ≡ section_of s.now c k }
{
    let a = 16 * rows_before(c, k);
    let e = a + 16 * rows_in(c, k);
    &s[a..e]
}

// What an answer says of the row: nothing, or the refusal.
pub fn verdict_in(a: Result<Fields, Refusal>) -> Verdict
    ensures { result ≡ verdict_in a }
{
    a.map(|_| ())
}

// The row's numbers: all zeros where it is refused.
pub fn fields_in(a: Result<Fields, Refusal>) -> Fields
    ensures { result ≡ fields_in a }
{
    a.unwrap_or_default()
}

// The kind of agent a by the agents' section: 0 where there is no such agent.
fn kind_in(agents: &[u8], a: u32) -> u32
    ensures { result ≡ kind_in agents.now a }
{
    rows::agent_of(octets::row_at(agents, a as usize)).kind
}

fn agent_row_good(w: Words) -> bool
    ensures { result ≡ agent_row_good w }
{
    rows::agent_blank(w) & rows::agent_good(rows::agent_of(w))
}

fn boundary_row_good(agents: &[u8], w: Words) -> bool
    ensures { result ≡ boundary_row_good (kind_in agents.now) w }
{
    let b = rows::boundary_of(w);
    rows::boundary_blank(w) & rows::boundary_good(kind_in(agents, b.agent), b)
}

fn plant_row_good(agents: &[u8], w: Words) -> bool
    ensures { result ≡ plant_row_good (kind_in agents.now) w }
{
    let p = rows::plant_of(w);
    rows::plant_good(kind_in(agents, p.agent), p)
}

fn contract_row_good(agents: &[u8], w: Words) -> bool
    ensures { result ≡ contract_row_good (kind_in agents.now) w }
{
    let k = rows::contract_of(w);
    rows::contract_good(kind_in(agents, k.seller), kind_in(agents, k.buyer), k)
}

// Whether a row of section k is good.
#[tactic(auto, unfolding(crate::specs::Sections::section_row_good))]
fn row_good(agents: &[u8], k: u32, w: Words) -> bool
    ensures { result ≡ section_row_good (kind_in agents.now) k w }
{
    match k {
        Agent::SECTION => agent_row_good(w),
        Boundary::SECTION => boundary_row_good(agents, w),
        Plant::SECTION => plant_row_good(agents, w),
        Contract::SECTION => contract_row_good(agents, w),
        _ => true,
    }
}

// Row i of a section: fine, or its refusal. Sections 1 to 4 have refusals 3 to 6.
fn read_row(agents: &[u8], section: &[u8], k: u32, i: usize) -> Verdict
    requires { (k ≤ 4) × Placeable i }
    ensures { result ≡ told_in agents.now section.now k i }
{
    let good = row_good(agents, k, octets::row_at(section, i));
    refusals::refuse_unless(good, k + 2, i as u32)
}

// The rows of section k, cut out of the sheet so that a row's place needs no test of its own: the first bad one ends the reading.
fn section_verdict(s: &[u8], c: Counts, k: u32) -> Verdict
    requires { Laid s.now c × (k ≤ 4) }
    ensures { result ≡ section_verdict s.now c k }
{
    let agents = part_of(s, c, Agent::SECTION);
    let section = part_of(s, c, k);
    let n = section.len() / 16;
    for i in 0..n {
        read_row(agents, section, k, i)?;
    }
    Ok(())
}

// The four sections: the lowest number wins.
#[tactic(auto, unfolding(crate::specs::Sections::rows_verdict))]
fn rows_verdict(s: &[u8], c: Counts) -> Verdict
    requires { Laid s.now c }
    ensures { result ≡ rows_verdict s.now c }
{
    section_verdict(s, c, Agent::SECTION)?;
    section_verdict(s, c, Boundary::SECTION)?;
    section_verdict(s, c, Plant::SECTION)?;
    section_verdict(s, c, Contract::SECTION)
}

#[tactic(auto, using(crate::proofs::Sections::reading_steps))]
pub fn read(s: &[u8]) -> Result<Counts, Refusal>
    ensures { result ≡ read_of s.now }
{
    refusals::refuse_unless(length_good(s.len()), Refusal::LENGTH, 0)?;
    let c = counts_of(s);
    refusals::refuse_unless(layout_good(s, c), Refusal::LAYOUT, 0)?;
    rows_verdict(s, c)?;
    Ok(c)
}
