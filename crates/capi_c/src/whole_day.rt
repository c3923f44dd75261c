// A day at one go, for C and Rust.
ghost use Rattle.hour.specs.Answer.{lent};
ghost use Rattle.capi.specs.WholeDay.{DayTold};

use day::HOURS;

// Settles 24 sheets into the parts of the four lent lists: number, place, price, demand and losses of each hour go to the list of
// summaries, and the number of what refused the whole call is returned, 0 where the hours were read.
#[unsafe(no_mangle)]
pub extern "C" fn naomhral_day(
    sheets: &[u8],
    lengths: &[u32; HOURS],
    figures: &mut [u32],
    money: &mut [i64],
    schedule: &mut [u32],
    amounts: &mut [u32],
    summaries: &mut [u32],
) -> u32
    ensures { DayTold sheets.now lengths.now
        (lent figures.old money.old schedule.old amounts.old)
        (lent figures.new money.new schedule.new amounts.new)
        summaries.old result summaries.new }
{
    capi::whole_day::naomhral_day(
        sheets, lengths, figures, money, schedule, amounts, summaries,
    )
}
