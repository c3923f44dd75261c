// The text of a sheet, put together from its end in a scratch.
ghost use Rattle.std.specs.Prelude.{◌+◌, ◌≤◌, ◌<◌, ◌≡◌, length, drop};
ghost use Rattle.printing.specs.Page.{Prints};
ghost use Rattle.sheet.specs.Reading.{read_of};
ghost use Rattle.typing.specs.Text.{sheet_text, fit_verdict, text_of, text_verdict};
ghost use Rattle.typing.specs.Steps.{text_room, RowPut, RowsPut};

use limits::{Agent, Boundary, Contract, Plant};
use octets::Words;
use printing::pen;
use refusals::Refusal;
use sheet::Counts;
use text::puts;

// The longest row has 8 bytes of its word, 21 of each of five numbers with its space, and the line end.
const ROW: usize = 114;

const ROOM: usize = ROW * (Agent::MOST + Boundary::MOST + Plant::MOST + Contract::MOST);

// Each section's row, where there is room for it.
fn put_agent(s: &mut [u8], at: usize, w: Words) -> usize
    ensures { RowPut 1 w s.old s.new at result }
{
    let a = rows::agent_of(w);
    puts::put_row(s, at, b"agent", &[a.kind])
}

fn put_boundary(s: &mut [u8], at: usize, w: Words) -> usize
    ensures { RowPut 2 w s.old s.new at result }
{
    let b = rows::boundary_of(w);
    puts::put_row(s, at, b"boundary", &[b.agent, b.factor, b.import, b.export])
}

fn put_plant(s: &mut [u8], at: usize, w: Words) -> usize
    ensures { RowPut 3 w s.old s.new at result }
{
    let p = rows::plant_of(w);
    puts::put_row(
        s,
        at,
        b"plant",
        &[p.agent, p.inflexible, p.must, p.price, p.availability],
    )
}

fn put_contract(s: &mut [u8], at: usize, w: Words) -> usize
    ensures { RowPut 4 w s.old s.new at result }
{
    let c = rows::contract_of(w);
    puts::put_row(
        s,
        at,
        b"contract",
        &[c.seller, c.buyer, c.kind, c.price, c.quantity],
    )
}

// A row of section k.
fn put_line(s: &mut [u8], at: usize, k: u32, w: Words) -> usize
    requires { (1 ≤ k) × (k ≤ 4) }
    ensures { RowPut k w s.old s.new at result }
{
    match k {
        Agent::SECTION => put_agent(s, at, w),
        Boundary::SECTION => put_boundary(s, at, w),
        Plant::SECTION => put_plant(s, at, w),
        _ => put_contract(s, at, w),
    }
}

// n rows of section k, the first of which is row `start` of the sheet: a count of rows, and the length of no list here.
fn put_section(s: &mut [u8], at: usize, sheet: &[u8], k: u32, start: usize, n: usize) -> usize
    requires { (1 ≤ k) × (k ≤ 4) × (start + n < 65536) }
    ensures { RowsPut k sheet.now start n s.old s.new at result }
{
    let mut i = at;
    for row in (start..start + n).rev() {
        i = put_line(s, i, k, octets::row_at(sheet, row));
    }
    i
}

// The text of an accepted sheet with these counts, at the end of a scratch with room for each row that a sheet may have.
fn put_text(s: &mut [u8], bytes: &[u8], c: Counts) -> usize
    requires { (read_of bytes.now ≡ Ok c) × (length s.old ≡ text_room) }
    ensures { drop result s.new ≡ sheet_text bytes.now c }
{
    let b = c.agents + c.boundaries;
    let p = b + c.plants;
    let i = put_section(s, s.len(), bytes, Contract::SECTION, p, c.contracts);
    let j = put_section(s, i, bytes, Plant::SECTION, b, c.plants);
    let k = put_section(s, j, bytes, Boundary::SECTION, c.agents, c.boundaries);
    put_section(s, k, bytes, Agent::SECTION, 0, c.agents)
}

fn give_text(bytes: &[u8], c: Counts, out: &mut [u8]) -> Result<usize, Refusal>
    requires { read_of bytes.now ≡ Ok c }
    ensures { Prints (fit_verdict (sheet_text bytes.now c) (length out.old))
        (sheet_text bytes.now c) out.old result out.new }
{
    let mut s = [0u8; ROOM];
    let from = put_text(&mut s, bytes, c);
    pen::give(&s, from, out)
}

// The text of a sheet, put into a lent buffer.
pub fn write(bytes: &[u8], out: &mut [u8]) -> Result<usize, Refusal>
    ensures { Prints (text_verdict (read_of bytes.now) bytes.now (length out.old))
        (text_of (read_of bytes.now) bytes.now) out.old result out.new }
{
    let c = sheet::read(bytes)?;
    give_text(bytes, c, out)
}
