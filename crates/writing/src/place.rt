// The rows of the sheet as four numbers each, and their bytes.
ghost use Rattle.std.specs.Prelude.{◌≡◌, ◌+◌, ◌*◌, ◌≤◌, ◌<◌, length};
ghost use Rattle.sums.specs.Lists.{Filled};
ghost use Rattle.octets.specs.Bytes.{byte_of};
ghost use Rattle.sheet.specs.Reading.{trailer_start};
ghost use Rattle.writing.specs.Lists.{given};
ghost use Rattle.writing.specs.Numbers.{counts_in};
ghost use Rattle.writing.specs.Words.{halves, agent_words, boundary_words, plant_words, contract_words, trailer_words, sheet_row};
ghost use Rattle.writing.specs.Put.{put_number, put_row};

use super::lists::{self, Lists};
use limits::{Agent, Boundary, Contract, Plant};
use octets::Words;
use sheet::Counts;

// Two 16-bit numbers in one.
fn join(x: u32, y: u32) -> u32
    ensures { result ≡ halves x y }
{
    x % 65536 + 65536 * (y % 65536)
}

fn agent_words(a: Agent) -> Words
    ensures { result ≡ agent_words a }
{
    Words {
        first: a.kind,
        ..Words::default()
    }
}

fn boundary_words(b: Boundary) -> Words
    ensures { result ≡ boundary_words b }
{
    Words {
        first: join(b.agent, b.factor),
        second: 0,
        third: b.import,
        fourth: b.export,
    }
}

fn plant_words(p: Plant) -> Words
    ensures { result ≡ plant_words p }
{
    Words {
        first: join(p.agent, p.inflexible),
        second: p.must,
        third: p.price,
        fourth: p.availability,
    }
}

fn contract_words(k: Contract) -> Words
    ensures { result ≡ contract_words k }
{
    Words {
        first: join(k.seller, k.buyer),
        second: k.kind,
        third: k.price,
        fourth: k.quantity,
    }
}

// A row of the trailer: distances back from its first byte, and counts.
#[tactic(auto, unfolding(crate::specs::Words::trailer_words))]
fn trailer_words(c: Counts, i: usize) -> Words
    requires { trailer_start c < 65536 }
    ensures { result ≡ trailer_words c i }
{
    let a = c.agents as u32;
    let b = c.boundaries as u32;
    let p = c.plants as u32;
    let k = c.contracts as u32;
    let end = a + b + p + k;
    if i == 0 {
        Words {
            first: 16 * end,
            second: a,
            third: 16 * (end - a),
            fourth: b,
        }
    } else {
        Words {
            first: 16 * (end - (a + b)),
            second: p,
            third: 16 * (end - (a + b + p)),
            fourth: k,
        }
    }
}

// Row r of the sheet.
#[tactic(auto, unfolding(crate::specs::Words::sheet_row))]
fn row_words(l: Lists<'_>, r: usize) -> Words
    requires { trailer_start (counts_in (given l)) < 65536 }
    ensures { result ≡ sheet_row
        (given l.entry) r }
{
    let c = lists::counts_in(l);
    let boundaries = c.agents;
    let plants = boundaries + c.boundaries;
    let contracts = plants + c.plants;
    let end = contracts + c.contracts;
    if r < boundaries {
        agent_words(lists::agent_in(l.agents, r))
    } else if r < plants {
        boundary_words(lists::boundary_in(l.boundaries, r - boundaries))
    } else if r < contracts {
        plant_words(lists::plant_in(l.plants, r - plants))
    } else if r < end {
        contract_words(lists::contract_in(l.contracts, r - contracts))
    } else {
        trailer_words(c, r - end)
    }
}

// A number at byte k, least byte first.
fn put_number(d: &mut [u8], k: usize, x: u32)
    requires { k + 4 ≤ length d.old }
    ensures { d.new ≡ put_number d.old k x }
{
    d[k..k + 4].copy_from_slice(&x.to_le_bytes());
}

#[tactic(auto, unfolding(crate::specs::Put::put_row))]
fn put_row(d: &mut [u8], k: usize, w: Words)
    requires { k + 16 ≤ length d.old }
    ensures { d.new ≡ put_row d.old k w }
{
    put_number(d, k, w.first);
    put_number(d, k + 4, w.second);
    put_number(d, k + 8, w.third);
    put_number(d, k + 12, w.fourth);
}

// The rows of the sheet, one after the other.
pub(crate) fn put_sheet(l: Lists<'_>, out: &mut [u8], rows: usize)
    requires { (trailer_start (counts_in (given l)) < 65536)
        × (16 * rows ≤ length out.old) }
    ensures { Filled 0 out.old out.new (16 * rows)
        (byte_of (sheet_row (given l.entry))) }
{
    for r in 0..rows {
        let w = row_words(l, r);
        put_row(out, 16 * r, w);
    }
}
