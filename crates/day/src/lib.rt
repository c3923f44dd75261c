// A day at one go: 24 sheets, one behind another, each settled into its own part of the four lent lists.
#![tactic(auto)]

ghost use Rattle.std.specs.Prelude.{◌≡◌, [], ◌∷◌, replicate};
ghost use Rattle.refusals.specs.Refusals.{bad_length, no_room, refused_unless, first_of};
ghost use Rattle.hour.specs.Answer.{lent};
ghost use Rattle.day.specs.Day.{start_of, hours, room_for_day, whole_verdict, DaySettled};
ghost use Rattle.day.specs.Steps.{Fits, HasPart, OneHour, HoursDone};

use hour::Summary;
use limits::{Agent, Contract, Plant};
use refusals::{Refusal, Verdict};

pub const HOURS: usize = 24;

// The cells of an hour's part of each list: as many as the largest sheet asks for.
pub const FIGURES: usize = Agent::CELLS * Agent::MOST;

pub const MONEY: usize = Agent::MOST;

pub const SCHEDULE: usize = Plant::MOST;

pub const AMOUNTS: usize = Contract::MOST;

// All lengths together, at 64 bits: 24 lengths of 32 bits cannot wrap it.
fn total(lengths: &[u32; HOURS]) -> usize
    ensures { result ≡ start_of lengths.now hours }
{
    let mut sum = 0;
    for &length in lengths {
        sum += length as usize;
    }
    sum
}

// Lists as long as 24 parts.
fn has_room(figures: usize, money: usize, schedule: usize, amounts: usize) -> bool
    ensures { result ≡ room_for_day figures money schedule amounts }
{
    (FIGURES * HOURS <= figures)
        & (MONEY * HOURS <= money)
        & (SCHEDULE * HOURS <= schedule)
        & (AMOUNTS * HOURS <= amounts)
}

// 1, then 11.
fn first_refusal(fits: bool, room: bool) -> Verdict
    ensures { result ≡ first_of (refused_unless fits bad_length 0 ∷ refused_unless room no_room 0 ∷ []) }
{
    if !fits {
        return refusals::refuse(Refusal::LENGTH, 0);
    }
    if !room {
        return refusals::refuse(Refusal::ROOM, 0);
    }
    Ok(())
}

// The refusals of the whole call, from the lengths of all that is lent.
#[tactic(auto, unfolding(crate::specs::Day::whole_verdict))]
pub fn judge(
    bytes: usize,
    lengths: &[u32; HOURS],
    figures: usize,
    money: usize,
    schedule: usize,
    amounts: usize,
) -> Verdict
    ensures { result ≡ whole_verdict bytes lengths.now figures money schedule amounts }
{
    let fits = total(lengths) <= bytes;
    let room = has_room(figures, money, schedule, amounts);
    first_refusal(fits, room)
}

// Settles hour h's sheet into its parts.
fn settle_hour(
    h: usize,
    sheet: &[u8],
    figures: &mut [u32],
    money: &mut [i64],
    schedule: &mut [u32],
    amounts: &mut [u32],
) -> Summary
    requires { HasPart h (lent figures.old money.old schedule.old amounts.old) }
    ensures { OneHour h sheet.now
        (lent figures.old money.old schedule.old amounts.old)
        (lent figures.new money.new schedule.new amounts.new) result }
{
    let f = FIGURES * h;
    let m = MONEY * h;
    let s = SCHEDULE * h;
    let a = AMOUNTS * h;
    let f_end = f + FIGURES;
    let m_end = m + MONEY;
    let s_end = s + SCHEDULE;
    let a_end = a + AMOUNTS;
    settle::settle(
        sheet,
        &mut figures[f..f_end],
        &mut money[m..m_end],
        &mut schedule[s..s_end],
        &mut amounts[a..a_end],
    )
}

// 24 summaries with this number and this place, and all else 0.
fn alike(number: u32, place: u32) -> [Summary; HOURS]
    ensures { result ≡ replicate hours (record { number = number; place = place; price = 0; demand = 0; losses = 0 }) }
{
    [Summary {
        number,
        place,
        price: 0,
        demand: 0,
        losses: 0,
    }; HOURS]
}

// Settles the hours one after another, each sheet behind the one before.
fn settle_hours(
    sheets: &[u8],
    lengths: &[u32; HOURS],
    figures: &mut [u32],
    money: &mut [i64],
    schedule: &mut [u32],
    amounts: &mut [u32],
) -> [Summary; HOURS]
    requires { Fits sheets.now lengths.now (lent figures.old money.old schedule.old amounts.old) }
    ensures { HoursDone hours sheets.now lengths.now
        (lent figures.old money.old schedule.old amounts.old)
        (lent figures.new money.new schedule.new amounts.new) result }
{
    let mut all = alike(0, 0);
    let mut start = 0;
    for h in 0..HOURS {
        let end = start + lengths[h] as usize;
        all[h] = settle_hour(h, &sheets[start..end], figures, money, schedule, amounts);
        start = end;
    }
    all
}

// Settles 24 sheets, for every string of bytes, all lengths and lists of every length.
pub fn settle_day(
    sheets: &[u8],
    lengths: &[u32; HOURS],
    figures: &mut [u32],
    money: &mut [i64],
    schedule: &mut [u32],
    amounts: &mut [u32],
) -> [Summary; HOURS]
    ensures { DaySettled sheets.now lengths.now
        (lent figures.old money.old schedule.old amounts.old)
        (lent figures.new money.new schedule.new amounts.new) result }
{
    let verdict = judge(
        sheets.len(),
        lengths,
        figures.len(),
        money.len(),
        schedule.len(),
        amounts.len(),
    );
    if let Err(r) = verdict {
        return alike(r.number, r.place);
    }
    settle_hours(sheets, lengths, figures, money, schedule, amounts)
}
