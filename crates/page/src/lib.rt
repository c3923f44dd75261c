// The page of a sheet: settled, and put into a lent buffer. Schedule and amounts are gone before the lines are written, and the lines
// are written where settling is over: the stack never holds both.
#![tactic(auto)]

ghost use Rattle.std.specs.Prelude.{◌≡◌, [], ℕ, ◌≤◌, ◌<◌};
ghost use Rattle.limits.specs.Limits.{most_agents, most_offer};
ghost use Rattle.sums.specs.Lists.{at};
ghost use Rattle.sheet.specs.Reading.{read_of};
ghost use Rattle.balance.specs.Balances.{zeros};
ghost use Rattle.lines.specs.Lines.{buys};
ghost use Rattle.printing.specs.Page.{page_of};
ghost use Rattle.page.specs.Page.{page_text, PrintsAll};
ghost use Rattle.page.specs.Parts.{HourColumns, columns_text};
ghost use Rattle.page.specs.Refused.{refused_summary};

use hour::Summary;
use limits::{Agent, Contract, Plant};
use refusals::Refusal;
use sheet::Counts;

// No page is longer (`page_most`).
pub const MOST: usize = 5120;

// Settles an accepted sheet in columns, with a schedule and amounts of our own, which have room for every sheet and are not asked for.
fn settle_lists(
    sheet: &[u8],
    c: Counts,
    kinds: &mut [u32; Agent::MOST],
    shares: &mut [u32; Agent::MOST],
    held: &mut [u32; Agent::MOST],
    own: &mut [u32; Agent::MOST],
    imports: &mut [u32; Agent::MOST],
) -> Summary
    requires sheet_value { read_of sheet.now ≡ Ok c }
    requires own_value { own.old ≡ zeros }
    ensures { HourColumns sheet.now c.agents kinds.new shares.new own.new
        imports.new held.new result }
{
    let mut schedule = [0u32; Plant::MOST];
    let mut amounts = [0u32; Contract::MOST];
    settle::settle_columns(
        sheet,
        c,
        kinds,
        shares,
        held,
        own,
        imports,
        true,
        &mut schedule,
        &mut amounts,
    )
}

// The page of a settled hour, from the columns that the lines of its n agents are made of.
fn print_lines<'a>(
    s: Summary,
    kinds: &'a [u32; Agent::MOST],
    shares: &'a [u32; Agent::MOST],
    own: &'a [u32; Agent::MOST],
    imports: &'a [u32; Agent::MOST],
    held: &'a [u32; Agent::MOST],
    n: usize,
    out: &mut [u8],
) -> Result<usize, Refusal>
    requires n_le_most_agents { (n ≤ most_agents) × (s.price ≤ most_offer) }
    requires by_index { (a : ℕ) → a < n → buys (at kinds.now a) (at own.now a) (at imports.now a) (at held.now a) ≤ 4294967295 }
    ensures { PrintsAll (columns_text s n kinds.now shares.now own.now imports.now
        held.now) out.old result out.new }
{
    let mut figures = [0u32; Agent::CELLS * Agent::MOST];
    let mut money = [0i64; Agent::MOST];
    lines::write_lines(
        kinds,
        shares,
        own,
        imports,
        held,
        n,
        s.price,
        &mut figures,
        &mut money,
    );
    let cells = Agent::CELLS * n;
    printing::print(s, &kinds[..n], &figures[..cells], &money[..n], out)
}

// The page of a refusal.
fn refused_page(why: Refusal, out: &mut [u8]) -> Result<usize, Refusal>
    ensures { PrintsAll (page_of (refused_summary why) [] [] []) out.old result out.new }
{
    let r = Summary {
        number: why.number,
        place: why.place,
        price: 0,
        demand: 0,
        losses: 0,
    };
    printing::print(r, &[], &[], &[], out)
}

// The page of an accepted sheet.
fn accepted_page(sheet: &[u8], c: Counts, out: &mut [u8]) -> Result<usize, Refusal>
    requires { read_of sheet.now ≡ Ok c }
    ensures { PrintsAll (page_text sheet.now) out.old result out.new }
{
    let n = c.agents;
    let mut kinds = [0u32; Agent::MOST];
    let mut shares = [0u32; Agent::MOST];
    let mut held = [0u32; Agent::MOST];
    let mut own = [0u32; Agent::MOST];
    let mut imports = [0u32; Agent::MOST];
    let s = settle_lists(
        sheet,
        c,
        &mut kinds,
        &mut shares,
        &mut held,
        &mut own,
        &mut imports,
    );
    // the C interface tells the summary by its number, 0 for a settled hour: `Summary` is flat
    if s.number != 0 {
        let why = Refusal {
            number: s.number,
            place: s.place,
        };
        return refused_page(why, out);
    }
    print_lines(s, &kinds, &shares, &own, &imports, &held, n, out)
}

// The page of any bytes: the settled hour, a line an agent, or the refusal.
pub fn page(sheet: &[u8], out: &mut [u8]) -> Result<usize, Refusal>
    ensures { PrintsAll (page_text sheet.now) out.old result out.new }
{
    match sheet::read(sheet) {
        Ok(c) => accepted_page(sheet, c, out),
        Err(why) => refused_page(why, out),
    }
}
