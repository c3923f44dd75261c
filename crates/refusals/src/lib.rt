// Why a sheet, a list, a question or a statement is turned away: the numbers, and the answer of a check.
#![tactic(auto)]

ghost use Rattle.std.specs.Prelude.{◌≡◌};
ghost use Rattle.refusals.specs.Refusals.{refused, refused_unless};

// A refusal's number, and the row, agent or number asked for that it speaks of. A number and no enum: `refuse` takes any number, and an
// hour's entry hands back whichever number the summary has that a caller gives (`entry::entry_of`).
#[derive(Clone, Copy)]
pub struct Refusal {
    pub number: u32,
    pub place: u32,
}

impl Refusal {
    pub const LENGTH: u32 = 1;

    pub const LAYOUT: u32 = 2;

    pub const AGENT: u32 = 3;

    pub const BOUNDARY: u32 = 4;

    pub const PLANT: u32 = 5;

    pub const CONTRACT: u32 = 6;

    pub const EXPORTS: u32 = 7;

    pub const GAIN: u32 = 8;

    pub const UNSHARED: u32 = 9;

    pub const UNCOVERED: u32 = 10;

    pub const ROOM: u32 = 11;

    pub const ASKED: u32 = 12;

    pub const OVERRUN: u32 = 13;

    pub const OVER_BOOK: u32 = 16;

    pub const SHARES: u32 = 21;

    pub const SCHEDULE: u32 = 22;

    pub const PRICE: u32 = 23;

    pub const AMOUNTS: u32 = 24;

    pub const LINES: u32 = 25;
}

// What a check answers.
pub type Verdict = Result<(), Refusal>;

pub fn refuse(number: u32, place: u32) -> Verdict
    ensures { result ≡ refused number place }
{
    Err(Refusal { number, place })
}

// The refusal, unless the test holds.
pub fn refuse_unless(ok: bool, number: u32, place: u32) -> Verdict
    ensures { result ≡ refused_unless ok number place }
{
    if ok { Ok(()) } else { refuse(number, place) }
}
