// Our statement of an hour as text, in the form in which an administrator's is typed. It is put together from its end, since digits come
// least first, in a scratch with room for the longest; the lent buffer is untouched until it is known to be long enough.
#![tactic(auto)]

mod putting;

ghost use Rattle.std.specs.Prelude.{◌≡◌, ◌≤◌, length, drop};
ghost use Rattle.sheet.specs.Reading.{read_of};
ghost use Rattle.hour.specs.Answer.{lent};
ghost use Rattle.printing.specs.Page.{Prints};
ghost use Rattle.telling.specs.Text.{lists_serve, statement_text, StatementWritten};
ghost use Rattle.telling.specs.Tell.{own_statement, tell_verdict};
ghost use Rattle.telling.specs.Enough.{Enough};
ghost use Rattle.telling.specs.Lists.{given};

use limits::{Agent, Contract, Plant};
use printing::pen;
use refusals::Refusal;
use sheet::Counts;
use text::puts;

// The longest statement: 175 bytes an agent, 51 a plant or a contract, 27 for the price.
const LONGEST: usize = 175 * Agent::MOST + 51 * (Plant::MOST + Contract::MOST) + 27;

// The lists that a statement is written from.
#[derive(Clone, Copy)]
struct Lists<'a> {
    figures: &'a [u32],
    money: &'a [i64],
    schedule: &'a [u32],
    amounts: &'a [u32],
}

// Counts within their limits, and lists as long as they ask for.
#[tactic(auto, unfolding(crate::specs::Text::lists_serve))]
fn lists_serve(c: Counts, l: Lists) -> bool
    ensures { result ≡ lists_serve c (length l.entry.figures.now) (length l.entry.money.now)
        (length l.entry.schedule.now) (length l.entry.amounts.now) }
{
    c.agents <= Agent::MOST
        && c.plants <= Plant::MOST
        && c.contracts <= Contract::MOST
        && Agent::CELLS * c.agents <= l.figures.len()
        && c.agents <= l.money.len()
        && c.plants <= l.schedule.len()
        && c.contracts <= l.amounts.len()
}

// The statement at the end of a scratch.
fn put_statement(s: &mut [u8], c: Counts, price: u32, l: Lists) -> usize
    requires serve { Enough c (length l.figures.now) (length l.money.now) (length l.schedule.now) (length l.amounts.now) }
    requires room { 27547 ≤ length s.old }
    ensures { drop result s.new ≡ statement_text c price (given l.entry) }
{
    let i = putting::put_list(s, s.len(), b"contract", &l.amounts[..c.contracts]);
    let j = putting::put_list(s, i, b"plant", &l.schedule[..c.plants]);
    let k = putting::put_agents(s, j, l.figures, &l.money[..c.agents]);
    puts::put_row(s, k, b"price", &[price])
}

// The statement of these lists, put into a lent buffer: 2 for counts over their limits or lists too short, 11 for want of room.
pub fn write(
    c: Counts,
    price: u32,
    figures: &[u32],
    money: &[i64],
    schedule: &[u32],
    amounts: &[u32],
    out: &mut [u8],
) -> Result<usize, Refusal>
    ensures { StatementWritten c price
        (lent figures.now money.now schedule.now amounts.now)
        out.old result out.new }
{
    let lists = Lists {
        figures,
        money,
        schedule,
        amounts,
    };
    if !lists_serve(c, lists) {
        return Err(Refusal {
            number: Refusal::LAYOUT,
            place: 0,
        });
    }
    let mut s = [0u8; LONGEST];
    let from = put_statement(&mut s, c, price, lists);
    pen::give(&s, from, out)
}

// Our statement of an accepted sheet.
fn tell_accepted(sheet: &[u8], c: Counts, out: &mut [u8]) -> Result<usize, Refusal>
    requires { read_of sheet.now ≡ Ok c }
    ensures { Prints (tell_verdict sheet.now (length out.old)) (own_statement sheet.now)
        out.old result out.new }
{
    let mut figures = [0u32; Agent::CELLS * Agent::MOST];
    let mut money = [0i64; Agent::MOST];
    let mut schedule = [0u32; Plant::MOST];
    let mut amounts = [0u32; Contract::MOST];
    let r = settle::settle_read(
        sheet,
        c,
        &mut figures,
        &mut money,
        &mut schedule,
        &mut amounts,
    );
    if r.number != 0 {
        return Err(Refusal {
            number: r.number,
            place: r.place,
        });
    }
    write(c, r.price, &figures, &money, &schedule, &amounts, out)
}

// Our statement of the hour of any bytes, put into a lent buffer: settling's refusals, and 11 for want of room.
pub fn tell(sheet: &[u8], out: &mut [u8]) -> Result<usize, Refusal>
    ensures { Prints (tell_verdict sheet.now (length out.old)) (own_statement sheet.now)
        out.old result out.new }
{
    let c = sheet::read(sheet)?;
    tell_accepted(sheet, c, out)
}
