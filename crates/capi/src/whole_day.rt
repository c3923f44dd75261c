// A day at one go, for C and Rust.
ghost use Rattle.std.specs.Prelude.{◌≡◌, ◌≤◌, ◌<◌, length};
ghost use Rattle.sums.specs.Lists.{at, Filled};
ghost use Rattle.hour.specs.Answer.{lent};
ghost use Rattle.capi.specs.WholeDay.{day_numbers, day_cell, DayTold};

use crate::{number_of, summary_numbers};
use day::HOURS;
use hour::Summary;
use refusals::Refusal;

// The numbers of a summary, and of all 24.
const NUMBERS: usize = 5;

const ALL: usize = NUMBERS * HOURS;

// Copies the summaries to the front of the caller's list, hour by hour.
fn tell_hours(all: [Summary; HOURS], out: &mut [u32])
    requires { day_numbers ≤ length out.old }
    ensures { Filled 0 out.old out.new day_numbers (day_cell all) }
{
    for (h, &s) in all.iter().enumerate() {
        let start = NUMBERS * h;
        out[start..start + NUMBERS].copy_from_slice(&summary_numbers(s));
    }
}

// Settles 24 sheets into the parts of the four lent lists: number, place, price, demand and losses of each hour go to the list of
// summaries, and the number of what refused the whole call is returned, 0 where the hours were read.
pub fn naomhral_day(
    sheets: &[u8],
    lengths: &[u32; HOURS],
    figures: &mut [u32],
    money: &mut [i64],
    schedule: &mut [u32],
    amounts: &mut [u32],
    summaries: &mut [u32],
) -> u32
    ensures { DayTold sheets.now lengths.now
        (lent figures.old money.old schedule.old amounts.old)
        (lent figures.new money.new schedule.new amounts.new)
        summaries.old result summaries.new }
{
    if summaries.len() < ALL {
        return Refusal::ROOM;
    }
    let whole = day::judge(
        sheets.len(),
        lengths,
        figures.len(),
        money.len(),
        schedule.len(),
        amounts.len(),
    );
    let all = day::settle_day(sheets, lengths, figures, money, schedule, amounts);
    tell_hours(all, summaries);
    number_of(whole)
}
