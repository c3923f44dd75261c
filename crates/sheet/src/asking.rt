// Asking a sheet for a section, or for any row of any section: refusal 12 where it is not there.
ghost use Rattle.std.specs.Prelude.{◌≡◌, ◌<◌};
ghost use Rattle.sheet.specs.Reading.{trailer_start, read_of};
ghost use Rattle.sheet.specs.Asking.{fields_at, asked_section, asked_row, row_of, section_of, row_in, section_in, section_answer};
ghost use Rattle.sheet.specs.Sections.{Placeable};

use crate::opened::{kept_row, kept_stretch};
use crate::{
    Counts, Fields, agent_fields, boundary_fields, contract_fields, part_of, plant_fields, read,
    rows_in,
};
use limits::{Agent, Boundary, Contract, Plant};
use refusals::{Refusal, Verdict};

#[tactic(auto, unfolding(crate::specs::Asking::fields_at))]
fn fields_at(s: &[u8], c: Counts, k: u32, i: usize) -> Fields
    requires { Placeable (trailer_start c) × Placeable i }
    ensures { result ≡ fields_at s.now c k i }
{
    match k {
        Agent::SECTION => agent_fields(rows::agent_of(octets::row_at(s, i))),
        Boundary::SECTION => boundary_fields(rows::boundary_of(octets::row_at(s, c.agents + i))),
        Plant::SECTION => plant_fields(rows::plant_of(octets::row_at(
            s,
            c.agents + c.boundaries + i,
        ))),
        Contract::SECTION => contract_fields(rows::contract_of(octets::row_at(
            s,
            c.agents + c.boundaries + c.plants + i,
        ))),
        _ => Fields::default(),
    }
}

fn asked_section(k: u32) -> Verdict
    ensures { result ≡ asked_section k }
{
    refusals::refuse_unless(
        (Agent::SECTION <= k) & (k <= Contract::SECTION),
        Refusal::ASKED,
        k,
    )
}

// A bad section before a bad row.
#[tactic(auto, unfolding(crate::specs::Asking::asked_row))]
fn asked_row(c: Counts, k: u32, i: u32) -> Verdict
    ensures { result ≡ asked_row c k i }
{
    asked_section(k)?;
    refusals::refuse_unless((i as usize) < rows_in(c, k), Refusal::ASKED, i)
}

// Row i of section k of an accepted sheet.
#[tactic(auto, using(crate::proofs::Accepted::accepted_few), unfolding(crate::specs::Asking::row_of))]
pub(crate) fn row_of(s: &[u8], c: Counts, k: u32, i: u32) -> Result<Fields, Refusal>
    requires { read_of s.now ≡ Ok c }
    ensures { result ≡ row_of s.now c k i }
{
    asked_row(c, k, i)?;
    Ok(fields_at(s, c, k, i as usize))
}

// Section k of an accepted sheet: whoever has the bytes and the counts that `read` gave need not know where a section stands.
#[tactic(auto, using(crate::proofs::Accepted::accepted_few, crate::proofs::Accepted::accepted_length))]
pub fn section_of(s: &[u8], c: Counts, k: u32) -> &[u8]
    requires { read_of s.now ≡ Ok c }
    ensures { result.now ≡ section_of s.now c k }
{
    part_of(s, c, k)
}

// Row i of section k of any bytes: reading's refusals first.
pub fn ask_row(s: &[u8], section: u32, row: u32) -> Result<Fields, Refusal>
    ensures { result ≡ row_in (read_of s.now) s.now section row }
{
    let c = read(s)?;
    kept_row(s, c, section, row)
}

// What asking any bytes for section k answers, and the stretch that it hands back: an empty one where it is refused.
pub fn ask_section(s: &[u8], section: u32) -> Verdict
    ensures { result ≡ section_answer (read_of s.now) section }
{
    read(s)?;
    asked_section(section)
}

pub fn section(s: &[u8], section: u32) -> &[u8]
    ensures { result.now ≡ section_in (read_of s.now) s.now section }
{
    match read(s) {
        Ok(c) => kept_stretch(s, c, section),
        Err(_) => &s[0..0],
    }
}
