// One hour settled: a sheet and four lent lists go in; the summary comes back and the lists are filled, or a refusal and the
// lists as they were. Everything is judged before anything is written.
#![tactic(auto)]

use balance::Weight;
use hour::Summary;
use limits::Agent;
use refusals::Refusal;
use sheet::Counts;

mod agreed;
mod plants;
mod tally;

ghost use Rattle.std.specs.Prelude.{◌≤◌, true, ◌≡◌, length, IfOk};
ghost use Rattle.sheet.specs.Reading.{read_of};
ghost use Rattle.columns.specs.Columns.{columns_of};
ghost use Rattle.settle.specs.Parts.{Tradable, Trades, SettledColumns, turned_away, verdict_on};
ghost use Rattle.balance.specs.Balances.{zeros};
ghost use Rattle.ground.specs.Ground.{admission_with};
ghost use Rattle.hour.specs.Answer.{lent};
ghost use Rattle.settle.specs.Settled.{Settled};

// The summary of a refusal.
pub fn turned_away(r: Refusal) -> Summary
    ensures { result ≡ turned_away r }
{
    Summary {
        number: r.number,
        place: r.place,
        price: 0,
        demand: 0,
        losses: 0,
    }
}

// The summary of a sheet that was weighed: its refusal, or, with amounts and schedule put into the lent lists, its price, demand and
// losses. What each agent holds under contract takes the place of its commercial demand, and its own energy that of what no schedule
// gives. Settling calls it, and so does who asks for a reason; since there are two of them the compiler makes a frame for it, which is not
// there yet while a sheet is weighed.
pub fn trade(
    bytes: &[u8],
    c: Counts,
    w: Result<Weight, Refusal>,
    held: &mut [u32; Agent::MOST],
    own: &mut [u32; Agent::MOST],
    schedule: &mut [u32],
    amounts: &mut [u32],
) -> Summary
    requires bytes_value { read_of bytes.now ≡ Ok c }
    requires tradable { IfOk w (λ x. Tradable (columns_of bytes.now c) x held.old own.old
        (length schedule.old) (length amounts.old)) }
    ensures { Trades (verdict_on w) (columns_of bytes.now c) own.new held.new
        schedule.old schedule.new amounts.old amounts.new result }
{
    let w = match w {
        Ok(w) => w,
        Err(why) => return turned_away(why),
    };
    agreed::agree(bytes, c, held, amounts);
    let price = plants::generate(bytes, c, w.target, schedule, own);
    Summary {
        number: 0,
        place: 0,
        price,
        demand: w.demand,
        losses: w.losses,
    }
}

// Settles the hour of a sheet that reading accepts with these counts, but for the agents' lines: what these are made of is left in the
// columns. Whether there is room is the caller's word, and holds of schedule and amounts. Settling writes the lines behind it, and so does
// a page, with lists that are not there yet while it settles.
pub fn settle_columns(
    bytes: &[u8],
    c: Counts,
    kinds: &mut [u32; Agent::MOST],
    shares: &mut [u32; Agent::MOST],
    held: &mut [u32; Agent::MOST],
    own: &mut [u32; Agent::MOST],
    imports: &mut [u32; Agent::MOST],
    room: bool,
    schedule: &mut [u32],
    amounts: &mut [u32],
) -> Summary
    requires bytes_value { read_of bytes.now ≡ Ok c }
    requires own_value { (own.old ≡ zeros) × (room ≡ true → (c.plants ≤ length schedule.old) × (c.contracts ≤ length amounts.old)) }
    ensures { SettledColumns (admission_with (columns_of bytes.now c) room) (columns_of bytes.now c) c.agents
        kinds.new shares.new own.new imports.new held.new
        schedule.old schedule.new amounts.old amounts.new result }
{
    // until trading the column of what is held has the commercial demands
    let w = ground::admit_with(bytes, c, kinds, shares, held, own, imports, room);
    trade(bytes, c, w, held, own, schedule, amounts)
}

// Settles the hour of a sheet that reading accepts with these counts.
pub fn settle_read(
    bytes: &[u8],
    c: Counts,
    figures: &mut [u32],
    money: &mut [i64],
    schedule: &mut [u32],
    amounts: &mut [u32],
) -> Summary
    requires { read_of bytes.now ≡ Ok c }
    ensures { Settled bytes.now
        (lent figures.old money.old schedule.old amounts.old)
        (lent figures.new money.new schedule.new amounts.new)
        result }
{
    let n = c.agents;
    let mut kinds = [0u32; Agent::MOST];
    let mut shares = [0u32; Agent::MOST];
    let mut held = [0u32; Agent::MOST];
    let mut own = [0u32; Agent::MOST];
    let mut imports = [0u32; Agent::MOST];
    let room = ground::has_room(c, figures.len(), money.len(), schedule.len(), amounts.len());
    let s = settle_columns(
        bytes,
        c,
        &mut kinds,
        &mut shares,
        &mut held,
        &mut own,
        &mut imports,
        room,
        schedule,
        amounts,
    );
    // the C interface tells the summary by its number, 0 for a settled hour: `Summary` is flat
    if s.number != 0 {
        return s;
    }
    lines::write_lines(
        &kinds, &shares, &own, &imports, &held, n, s.price, figures, money,
    );
    s
}

// Settles the hour of a sheet, for every string of bytes and lists of every length.
pub fn settle(
    bytes: &[u8],
    figures: &mut [u32],
    money: &mut [i64],
    schedule: &mut [u32],
    amounts: &mut [u32],
) -> Summary
    ensures { Settled bytes.now
        (lent figures.old money.old schedule.old amounts.old)
        (lent figures.new money.new schedule.new amounts.new)
        result }
{
    match sheet::read(bytes) {
        Ok(c) => settle_read(bytes, c, figures, money, schedule, amounts),
        Err(why) => turned_away(why),
    }
}
