// A sheet from its text, and its text from a sheet.
#![tactic(auto)]

mod gather;
mod places;
mod scans;
pub mod texts;

ghost use Rattle.std.specs.Prelude.{◌≡◌};
ghost use Rattle.writing.specs.Numbers.{numbers};
ghost use Rattle.typing.specs.Read.{ReadInto};
ghost use Rattle.typing.specs.Made.{made_by, MadeInto};
ghost use Rattle.typing.specs.Steps.{Fronts};

use limits::{Agent, Boundary, Contract, Plant};
use refusals::Refusal;
use sheet::Counts;
use text::{Fault, WrongLine};

// How far a text was read: its lines up to the first that is wrong, what is wrong with that one, and the rows of each section.
#[derive(Clone, Copy)]
pub struct Scan {
    pub line: usize,
    pub fault: Option<Fault>,
    pub counts: Counts,
}

// Why a text makes no sheet: a line is wrong, or writing refuses; that is told with the line of the row that it speaks of, 0 where it
// speaks of none.
#[derive(Clone, Copy)]
pub enum Unmade {
    Wrong(WrongLine),
    Refused(usize, Refusal),
}

// The numbers of a text at the front of four lists, or its first line that is wrong and how: then the lists stay as they were.
pub fn read(
    text: &[u8],
    agents: &mut [u32],
    boundaries: &mut [u32],
    plants: &mut [u32],
    contracts: &mut [u32],
) -> Scan
    ensures { ReadInto text.now
        (numbers agents.old boundaries.old plants.old contracts.old) result
        (numbers agents.new boundaries.new plants.new contracts.new) }
{
    let rooms = Counts {
        agents: agents.len(),
        boundaries: boundaries.len() / 4,
        plants: plants.len() / 5,
        contracts: contracts.len() / 5,
    };
    let r = scans::scan(text, rooms);
    if r.fault.is_some() {
        return r;
    }
    gather::gather(text, agents, Agent::SECTION);
    gather::gather(text, boundaries, Boundary::SECTION);
    gather::gather(text, plants, Plant::SECTION);
    gather::gather(text, contracts, Contract::SECTION);
    r
}

// What writing answered, with the line of the row that it refused.
fn told(w: Result<usize, Refusal>, text: &[u8]) -> Result<usize, Unmade>
    ensures { result ≡ made_by w text.now }
{
    w.map_err(|why| Unmade::Refused(places::refused_line(text, why), why))
}

// The sheet of a text whose numbers stand at the fronts of four lists.
fn write_fronts(
    text: &[u8],
    c: Counts,
    agents: &[u32],
    boundaries: &[u32],
    plants: &[u32],
    contracts: &[u32],
    out: &mut [u8],
) -> Result<usize, Unmade>
    requires { Fronts text.now c (numbers agents.now boundaries.now plants.now contracts.now) }
    ensures { MadeInto text.now out.old result out.new }
{
    let w = writing::write(
        &agents[..c.agents],
        &boundaries[..4 * c.boundaries],
        &plants[..5 * c.plants],
        &contracts[..5 * c.contracts],
        out,
    );
    told(w, text)
}

// The sheet of a text at the front of a buffer, and how long it is. The bytes past its length keep their values.
pub fn make(text: &[u8], out: &mut [u8]) -> Result<usize, Unmade>
    ensures { MadeInto text.now out.old result out.new }
{
    let mut agents = [0u32; Agent::MOST];
    let mut boundaries = [0u32; 4 * Boundary::MOST];
    let mut plants = [0u32; 5 * Plant::MOST];
    let mut contracts = [0u32; 5 * Contract::MOST];
    let r = read(
        text,
        &mut agents,
        &mut boundaries,
        &mut plants,
        &mut contracts,
    );
    if let Some(fault) = r.fault {
        return Err(Unmade::Wrong(WrongLine {
            line: r.line,
            fault,
        }));
    }
    write_fronts(
        text,
        r.counts,
        &agents,
        &boundaries,
        &plants,
        &contracts,
        out,
    )
}
