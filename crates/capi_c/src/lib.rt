// The exports for C: each calls the function of its name in `capi` and promises what that promises.
#![tactic(auto)]

mod day_book;
mod mending;
mod texts;
mod whole_day;
mod why;

ghost use Rattle.writing.specs.Numbers.{numbers};
ghost use Rattle.capi.specs.Told.{ShareTold, ReadTold, WriteTold, SettleTold, CheckTold, PageTold};
ghost use Rattle.hour.specs.Answer.{lent};

// Shares an amount over weights, and returns the refusal's number, 0 where all is fine.
#[unsafe(no_mangle)]
pub extern "C" fn naomhral_share(amount: u32, weights: &[u32], out: &mut [u32]) -> u32
    ensures { ShareTold amount weights.now out.old result out.new }
{
    capi::naomhral_share(amount, weights, out)
}

// Reads a sheet: number, place and the four counts go to the answer list, and the number is returned.
#[unsafe(no_mangle)]
pub extern "C" fn naomhral_read(sheet: &[u8], answer: &mut [u32]) -> u32
    ensures { ReadTold sheet.now answer.old result answer.new }
{
    capi::naomhral_read(sheet, answer)
}

// Writes a sheet: number, place and length go to the answer list, and the number is returned.
#[unsafe(no_mangle)]
pub extern "C" fn naomhral_write(
    agents: &[u32],
    boundaries: &[u32],
    plants: &[u32],
    contracts: &[u32],
    out: &mut [u8],
    answer: &mut [u32],
) -> u32
    ensures { WriteTold (numbers agents.now boundaries.now plants.now contracts.now)
        out.old answer.old result out.new answer.new }
{
    capi::naomhral_write(agents, boundaries, plants, contracts, out, answer)
}

// Settles a sheet into the four lent lists: number, place, price, demand and losses go to the summary list, and the number is
// returned.
#[unsafe(no_mangle)]
pub extern "C" fn naomhral_settle(
    sheet: &[u8],
    figures: &mut [u32],
    money: &mut [i64],
    schedule: &mut [u32],
    amounts: &mut [u32],
    summary: &mut [u32],
) -> u32
    ensures { SettleTold sheet.now
        (lent figures.old money.old schedule.old amounts.old)
        (lent figures.new money.new schedule.new amounts.new)
        summary.old result summary.new }
{
    capi::naomhral_settle(sheet, figures, money, schedule, amounts, summary)
}

// Checks an administrator's statement of a sheet's hour: number and place go to the answer list, and the number is returned.
#[unsafe(no_mangle)]
pub extern "C" fn naomhral_check(
    sheet: &[u8],
    price: u32,
    figures: &[u32],
    money: &[i64],
    schedule: &[u32],
    amounts: &[u32],
    answer: &mut [u32],
) -> u32
    ensures { CheckTold sheet.now price
        (lent figures.now money.now schedule.now amounts.now)
        answer.old result answer.new }
{
    capi::naomhral_check(sheet, price, figures, money, schedule, amounts, answer)
}

// Puts a sheet's page into a lent buffer: number, place and length go to the answer list, and the number is returned.
#[unsafe(no_mangle)]
pub extern "C" fn naomhral_page(sheet: &[u8], out: &mut [u8], answer: &mut [u32]) -> u32
    ensures { PageTold sheet.now out.old answer.old result out.new answer.new }
{
    capi::naomhral_page(sheet, out, answer)
}
