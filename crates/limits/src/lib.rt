// The four kinds of row, with the limits that bound them.
#![tactic(auto)]

ghost use Rattle.std.specs.Prelude.{◌≡◌, leb};
ghost use Rattle.limits.specs.Limits.{most_factor, most_reading, most_offer, most_available, most_price, most_quantity, few_rows};

// Kinds and sections are numbers and no enums: a row says any number (`rows::agent_of` answers for each), and a section is asked for by
// any number (`sheet::asking::ask_row`).
#[derive(Clone, Copy)]
pub struct Agent {
    pub kind: u32,
}

impl Agent {
    // The number of their section, and how many rows it may have.
    pub const SECTION: u32 = 1;

    pub const MOST: usize = 64; // agents

    // The figures of an agent's line: loss share, own energy, own import, contracted, bought, sold.
    pub const CELLS: usize = 6;

    pub const RETAILER: u32 = 1;

    pub const GENERATOR: u32 = 2;

    // A small generator outside central dispatch.
    pub const SMALL: u32 = 3;
}

#[derive(Clone, Copy)]
pub struct Boundary {
    pub agent: u32,
    pub factor: u32,
    pub import: u32,
    pub export: u32,
}

impl Boundary {
    // The number of their section, and how many rows it may have.
    pub const SECTION: u32 = 2;

    pub const MOST: usize = 256; // boundaries

    pub const FACTOR: u32 = 5000;

    pub const READING: u32 = 4000000;
}

#[derive(Clone, Copy)]
pub struct Plant {
    pub agent: u32,
    pub inflexible: u32,
    // What it runs whatever its price, in kWh: 0 for a flexible plant.
    pub must: u32,
    pub price: u32,
    pub availability: u32,
}

impl Plant {
    // The number of their section, and how many rows it may have.
    pub const SECTION: u32 = 3;

    pub const MOST: usize = 64; // plants

    // The highest flag: 1 says that the plant is inflexible.
    pub const INFLEXIBLE: u32 = 1;

    pub const OFFER: u32 = 1000000;

    pub const AVAILABILITY: u32 = 4000000;
}

#[derive(Clone, Copy)]
pub struct Contract {
    pub seller: u32,
    pub buyer: u32,
    pub kind: u32,
    pub price: u32,
    pub quantity: u32,
}

impl Contract {
    // The number of their section, and how many rows it may have.
    pub const SECTION: u32 = 4;

    pub const MOST: usize = 256; // contracts

    pub const FIXED: u32 = 1;

    pub const CONDITIONAL: u32 = 2;

    pub const DEMANDED: u32 = 3;

    pub const PRICE: u32 = 1000000;

    pub const QUANTITY: u32 = 4000000;
}

// No section has more rows than its limit.
pub fn few(agents: usize, boundaries: usize, plants: usize, contracts: usize) -> bool
    ensures { result ≡ few_rows agents boundaries plants contracts }
{
    (agents <= Agent::MOST)
        & (boundaries <= Boundary::MOST)
        & (plants <= Plant::MOST)
        & (contracts <= Contract::MOST)
}

// Whether a number of a row is within its limit.
pub fn is_factor(x: u32) -> bool
    ensures { result ≡ leb x most_factor }
{
    x <= Boundary::FACTOR
}

pub fn is_reading(x: u32) -> bool
    ensures { result ≡ leb x most_reading }
{
    x <= Boundary::READING
}

pub fn is_offer(x: u32) -> bool
    ensures { result ≡ leb x most_offer }
{
    x <= Plant::OFFER
}

pub fn is_availability(x: u32) -> bool
    ensures { result ≡ leb x most_available }
{
    x <= Plant::AVAILABILITY
}

pub fn is_price(x: u32) -> bool
    ensures { result ≡ leb x most_price }
{
    x <= Contract::PRICE
}

pub fn is_quantity(x: u32) -> bool
    ensures { result ≡ leb x most_quantity }
{
    x <= Contract::QUANTITY
}
