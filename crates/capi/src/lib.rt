// The library for C and Rust. A list passes as a pointer and then its length; answers are numbers in a lent list.
#![tactic(auto)]

pub mod day_book;
pub mod mending;

ghost use Rattle.std.specs.Prelude.{◌≡◌, ◌≤◌, ◌<◌, length};
ghost use Rattle.sums.specs.Lists.{at, Filled};
ghost use Rattle.refusals.specs.Refusals.{number_of};
ghost use Rattle.writing.specs.Numbers.{numbers};
ghost use Rattle.capi.specs.Told.{ShareTold, ReadTold, WriteTold, SettleTold, CheckTold, PageTold, summary_answer};

pub mod texts;
pub mod whole_day;
pub mod why;

ghost use Rattle.hour.specs.Answer.{lent};

use hour::Summary;
use refusals::{Refusal, Verdict};

// Lists the answer's numbers at the front of the caller's list, and hands back the first.
fn tell(numbers: &[u32], out: &mut [u32]) -> u32
    requires { (0 < length numbers.now) × (length numbers.now ≤ length out.old) }
    ensures { (result ≡ at numbers.now 0)
        × Filled 0 out.old out.new (length numbers.now) (at numbers.now) }
{
    out[..numbers.len()].copy_from_slice(numbers);
    numbers[0]
}

// An hour's summary as numbers.
fn summary_numbers(s: Summary) -> [u32; 5]
    ensures { result ≡ summary_answer s }
{
    [s.number, s.place, s.price, s.demand, s.losses]
}

fn number_of(v: Verdict) -> u32
    ensures { result ≡ number_of v }
{
    match v {
        Ok(()) => 0,
        Err(why) => why.number,
    }
}

// Shares an amount over weights, and returns the refusal's number, 0 where all is fine.
pub fn naomhral_share(amount: u32, weights: &[u32], out: &mut [u32]) -> u32
    ensures { ShareTold amount weights.now out.old result out.new }
{
    number_of(share::share(amount, weights, out))
}

// Reads a sheet: number, place and the four counts go to the answer list, and the number is returned.
#[tactic(auto, using(sheet::proofs::Accepted::accepted_few))]
pub fn naomhral_read(sheet: &[u8], answer: &mut [u32]) -> u32
    ensures { ReadTold sheet.now answer.old result answer.new }
{
    if answer.len() < 6 {
        return Refusal::ROOM;
    }
    match sheet::read(sheet) {
        Ok(c) => tell(
            &[
                0,
                0,
                c.agents as u32,
                c.boundaries as u32,
                c.plants as u32,
                c.contracts as u32,
            ],
            answer,
        ),
        Err(why) => tell(&[why.number, why.place, 0, 0, 0, 0], answer),
    }
}

// Writes a sheet: number, place and length go to the answer list, and the number is returned.
pub fn naomhral_write(
    agents: &[u32],
    boundaries: &[u32],
    plants: &[u32],
    contracts: &[u32],
    out: &mut [u8],
    answer: &mut [u32],
) -> u32
    ensures { WriteTold (numbers agents.now boundaries.now plants.now contracts.now)
        out.old answer.old result out.new answer.new }
{
    if answer.len() < 3 {
        return Refusal::ROOM;
    }
    match writing::write(agents, boundaries, plants, contracts, out) {
        Ok(n) => tell(&[0, 0, n as u32], answer),
        Err(why) => tell(&[why.number, why.place, 0], answer),
    }
}

// Settles a sheet into the four lent lists: number, place, price, demand and losses go to the summary list, and the number is
// returned.
pub fn naomhral_settle(
    sheet: &[u8],
    figures: &mut [u32],
    money: &mut [i64],
    schedule: &mut [u32],
    amounts: &mut [u32],
    summary: &mut [u32],
) -> u32
    ensures { SettleTold sheet.now
        (lent figures.old money.old schedule.old amounts.old)
        (lent figures.new money.new schedule.new amounts.new)
        summary.old result summary.new }
{
    if summary.len() < 5 {
        return Refusal::ROOM;
    }
    let s = settle::settle(sheet, figures, money, schedule, amounts);
    tell(&summary_numbers(s), summary)
}

// Checks an administrator's statement of a sheet's hour: number and place go to the answer list, and the number is returned.
pub fn naomhral_check(
    sheet: &[u8],
    price: u32,
    figures: &[u32],
    money: &[i64],
    schedule: &[u32],
    amounts: &[u32],
    answer: &mut [u32],
) -> u32
    ensures { CheckTold sheet.now price
        (lent figures.now money.now schedule.now amounts.now)
        answer.old result answer.new }
{
    if answer.len() < 2 {
        return Refusal::ROOM;
    }
    match checking::check(sheet, price, figures, money, schedule, amounts) {
        Ok(()) => tell(&[0, 0], answer),
        Err(why) => tell(&[why.number, why.place], answer),
    }
}

// Puts a sheet's page into a lent buffer: number, place and length go to the answer list, and the number is returned.
pub fn naomhral_page(sheet: &[u8], out: &mut [u8], answer: &mut [u32]) -> u32
    ensures { PageTold sheet.now out.old answer.old result out.new answer.new }
{
    if answer.len() < 3 {
        return Refusal::ROOM;
    }
    match page::page(sheet, out) {
        Ok(n) => tell(&[0, 0, n as u32], answer),
        Err(why) => tell(&[why.number, why.place, 0], answer),
    }
}
