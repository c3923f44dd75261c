// The plants of an accepted sheet: what they offer and must run together, and their rows by their columns.
ghost use Rattle.std.specs.Prelude.{◌≡◌};
ghost use Rattle.sums.specs.Sums.{sum};
ghost use Rattle.sums.specs.Lists.{at};
ghost use Rattle.sheet.specs.Reading.{read_of};
ghost use Rattle.columns.specs.Columns.{columns_of};
ghost use Rattle.hour.specs.Sheet.{plants};
ghost use Rattle.ground.specs.Ground.{fleet, Tabled};
ghost use Rattle.ground.specs.Parts.{Wide};

use limits::Plant;
use sheet::Counts;

// What all plants can deliver together, and what of it they must.
#[derive(Clone, Copy)]
pub(crate) struct Reach {
    pub available: u32,
    pub must: u32,
}

pub(crate) fn offered(bytes: &[u8], c: Counts) -> Reach
    requires { read_of bytes.now ≡ Ok c }
    ensures { (result.available ≡ sum (plants (columns_of bytes.now c)) (at (columns_of bytes.now c).available))
        × (result.must ≡ sum (plants (columns_of bytes.now c)) (at (columns_of bytes.now c).must_run)) }
{
    let section = sheet::asking::section_of(bytes, c, Plant::SECTION);
    let mut available = 0;
    let mut must = 0;
    for i in 0..c.plants {
        let p = rows::plant_of(octets::row_at(section, i));
        available += p.availability;
        must += p.must;
    }
    Reach { available, must }
}

// The plant rows by their columns, where each list has a cell a plant.
fn fill(
    bytes: &[u8],
    c: Counts,
    holders: &mut [u32],
    flags: &mut [u32],
    musts: &mut [u32],
    offers: &mut [u32],
    available: &mut [u32],
)
    requires bytes_value { read_of bytes.now ≡ Ok c }
    requires wide { Wide c.plants (fleet holders.old flags.old musts.old offers.old available.old) }
    ensures { Tabled (columns_of bytes.now c) c.plants
        (fleet holders.old flags.old musts.old offers.old available.old)
        (fleet holders.new flags.new musts.new offers.new available.new) }
{
    let section = sheet::asking::section_of(bytes, c, Plant::SECTION);
    for i in 0..c.plants {
        let p = rows::plant_of(octets::row_at(section, i));
        holders[i] = p.agent;
        flags[i] = p.inflexible;
        musts[i] = p.must;
        offers[i] = p.price;
        available[i] = p.availability;
    }
}

// The plant rows of a sheet that reading accepts with these counts, by their columns.
pub fn columns(
    bytes: &[u8],
    c: Counts,
    holders: &mut [u32; Plant::MOST],
    flags: &mut [u32; Plant::MOST],
    musts: &mut [u32; Plant::MOST],
    offers: &mut [u32; Plant::MOST],
    available: &mut [u32; Plant::MOST],
)
    requires { read_of bytes.now ≡ Ok c }
    ensures { Tabled (columns_of bytes.now c) c.plants
        (fleet holders.old flags.old musts.old offers.old available.old)
        (fleet holders.new flags.new musts.new offers.new available.new) }
{
    fill(bytes, c, holders, flags, musts, offers, available);
}
