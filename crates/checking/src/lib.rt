// Whether an administrator's statement of an hour is accepted: a sheet, a price and four lists go in, a verdict comes out, and nothing
// is changed.
#![tactic(auto)]

use limits::Agent;
use refusals::{Refusal, Verdict};
use sheet::Counts;

mod agents;
mod amounts;
mod numbers;
mod passes;
mod plants;
mod shares;
mod tally;

ghost use Rattle.std.specs.Prelude.{◌≡◌, ◌≤◌};
ghost use Rattle.limits.specs.Limits.{most_agents};
ghost use Rattle.sheet.specs.Reading.{read_of};
ghost use Rattle.columns.specs.Columns.{columns_of};
ghost use Rattle.hour.specs.Answer.{lent, Roomy};
ghost use Rattle.statement.specs.Tests.{points_verdict};
ghost use Rattle.checking.specs.Parts.{Weighs, Demands, trade_verdict};
ghost use Rattle.checking.specs.Check.{stated_verdict, check_verdict};

// What an administrator states of an hour.
#[derive(Clone, Copy)]
struct Stated<'a> {
    price: u32,
    figures: &'a [u32],
    money: &'a [i64],
    schedule: &'a [u32],
    amounts: &'a [u32],
}

// The agents of a sheet as weighing has them: their kinds, their own imports, and what small generators deliver.
#[derive(Clone, Copy)]
struct Metered<'a> {
    kinds: &'a [u32],
    imports: &'a [u32],
    injected: &'a [u32],
}

// Points 22 to 25, on the demands that their shares make.
fn trades(bytes: &[u8], c: Counts, metered: Metered, demands: &[u32], stated: Stated) -> Verdict
    requires bytes_value { read_of bytes.now ≡ Ok c }
    requires roomy { Roomy (columns_of bytes.now c) (lent stated.figures.now stated.money.now stated.schedule.now stated.amounts.now)
        × Demands (columns_of bytes.now c) (lent stated.figures.now stated.money.now stated.schedule.now stated.amounts.now)
        metered.kinds.now demands.now metered.imports.now metered.injected.now }
    ensures { result ≡ trade_verdict (columns_of bytes.now c) stated.entry.price
        (lent stated.entry.figures.now stated.entry.money.now stated.entry.schedule.now stated.entry.amounts.now) }
{
    let retailers = shares::total(demands);
    let generators = shares::total(metered.imports);
    let small = shares::total(metered.injected);
    let target = (retailers + generators).saturating_sub(small);
    let mut own = [0u64; Agent::MOST];
    shares::together(demands, metered.injected, &mut own);
    let Some(price) = plants::judge(bytes, c, target, stated.schedule, &mut own) else {
        return refusals::refuse(Refusal::SCHEDULE, 0);
    };
    refusals::refuse_unless(stated.price == price, Refusal::PRICE, 0)?;
    let mut held = [0u64; Agent::MOST];
    let follow = amounts::judge(bytes, c, demands, stated.amounts, &mut held);
    refusals::refuse_unless(follow, Refusal::AMOUNTS, 0)?;
    let good = agents::good(
        metered.kinds,
        &own,
        metered.imports,
        &held,
        stated.price,
        stated.figures,
        stated.money,
    );
    refusals::refuse_unless(good, Refusal::LINES, 0)
}

// The five points, the first that fails.
fn points(
    bytes: &[u8],
    c: Counts,
    metered: Metered,
    used: &[u32],
    losses: u32,
    stated: Stated,
) -> Verdict
    requires bytes_value { read_of bytes.now ≡ Ok c }
    requires roomy { Roomy (columns_of bytes.now c) (lent stated.figures.now stated.money.now stated.schedule.now stated.amounts.now)
        × Weighs (columns_of bytes.now c) metered.kinds.now used.now metered.imports.now metered.injected.now losses }
    ensures { result ≡ points_verdict (columns_of bytes.now c) stated.entry.price
        (lent stated.entry.figures.now stated.entry.money.now stated.entry.schedule.now stated.entry.amounts.now) }
{
    let consumed = shares::total(used);
    let good = shares::good(metered.kinds, used, losses, consumed, stated.figures);
    refusals::refuse_unless(good, Refusal::SHARES, 0)?;
    let mut demands = [0u32; Agent::MOST];
    shares::demands(used, stated.figures, &mut demands);
    trades(bytes, c, metered, &demands[..used.len()], stated)
}

// Checks a statement of the hour of a sheet that reading accepts with these counts.
fn check_read(bytes: &[u8], c: Counts, stated: Stated) -> Verdict
    requires bytes_value { read_of bytes.now ≡ Ok c }
    requires few { c.agents ≤ most_agents }
    ensures { result ≡ stated_verdict (columns_of bytes.now c) stated.entry.price
        (lent stated.entry.figures.now stated.entry.money.now stated.entry.schedule.now stated.entry.amounts.now) }
{
    let mut kinds = [0u32; Agent::MOST];
    let mut ours = [0u32; Agent::MOST];
    let mut commercial = [0u32; Agent::MOST];
    let mut own = [0u32; Agent::MOST];
    let mut imports = [0u32; Agent::MOST];
    let w = ground::admit(
        bytes,
        c,
        &mut kinds,
        &mut ours,
        &mut commercial,
        &mut own,
        &mut imports,
        stated.figures,
        stated.money,
        stated.schedule,
        stated.amounts,
    )?;
    let n = c.agents;
    let mut used = [0u32; Agent::MOST];
    shares::differences(&commercial[..n], &ours[..n], &mut used);
    let mut injected = [0u32; Agent::MOST];
    shares::differences(&own[..n], &commercial[..n], &mut injected);
    let metered = Metered {
        kinds: &kinds[..n],
        imports: &imports[..n],
        injected: &injected[..n],
    };
    points(bytes, c, metered, &used[..n], w.losses, stated)
}

// Checks a statement of the hour of a sheet, for every string of bytes and lists of every length.
pub fn check(
    bytes: &[u8],
    price: u32,
    figures: &[u32],
    money: &[i64],
    schedule: &[u32],
    amounts: &[u32],
) -> Verdict
    ensures { result ≡ check_verdict bytes.now price
        (lent figures.now money.now schedule.now amounts.now) }
{
    let c = sheet::read(bytes)?;
    let stated = Stated {
        price,
        figures,
        money,
        schedule,
        amounts,
    };
    check_read(bytes, c, stated)
}
