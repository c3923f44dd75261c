// From readings to commercial demand: what each agent took and delivered, what was lost on the way, and who carries it.
#![tactic(auto)]

ghost use Rattle.std.specs.Prelude.{◌≡◌, false, ◌&&◌, ◌||◌, not, ℕ, ◌+◌, ◌-◌, ◌≤◌, ◌<◌, ltb, eqb, length, set, IfSome};
ghost use Rattle.sums.specs.Sums.{pick, first};
ghost use Rattle.sums.specs.Lists.{at};
ghost use Rattle.limits.specs.Limits.{most_agents, most_factor, most_reading};
ghost use Rattle.rows.specs.Rows.{carries_losses, is_outside};
ghost use Rattle.sheet.specs.Reading.{read_of};
ghost use Rattle.columns.specs.Columns.{columns_of};
ghost use Rattle.hour.specs.Balance.{referred, rounded};
ghost use Rattle.hour.specs.Answer.{balance_verdict};
ghost use Rattle.balance.specs.Balances.{zeros, ledger, Weighing};
ghost use Rattle.balance.specs.Parts.{most_exact, Metered, Read, SharesFit, WithShares, found, weighed_by};

use limits::{Agent, Boundary};
use refusals::{Refusal, Verdict};
use sheet::Counts;

// What weighing answers beside the columns.
#[derive(Clone, Copy)]
pub struct Weight {
    pub losses: u32,
    pub demand: u32,
    // What central dispatch has to meet of the demand.
    pub target: u32,
}

// One reading, referred: exact ten-thousandths.
#[tactic(auto, unfolding(hour::specs::Balance::referred))]
fn refer(reading: u32, factor: u32) -> u64
    requires { (reading ≤ most_reading) × (factor ≤ most_factor) }
    ensures { result ≡ referred reading factor }
{
    u64::from(reading) * u64::from(10000 + factor)
}

// Ten-thousandths as whole kWh, half upwards.
#[tactic(auto, unfolding(hour::specs::Balance::rounded))]
fn to_whole(x: u64) -> u32
    requires { x ≤ most_exact }
    ensures { result ≡ rounded x }
{
    ((x + 5000) / 10000) as u32
}

// One reading more in the cell of its agent.
#[tactic(auto, using(hour::proofs::Bounds::referred_le))]
fn add_reading(out: &mut [u64], a: usize, reading: u32, factor: u32)
    requires { (a < length out.old) × (at out.old a ≤ most_exact) × (reading ≤ most_reading) × (factor ≤ most_factor) }
    ensures { out.new ≡ set out.old a (at out.old a + referred reading factor) }
{
    out[a] += refer(reading, factor);
}

// What each agent took and delivered, in ten-thousandths: one pass over the boundary rows.
fn meter(s: &[u8], c: Counts, imports: &mut [u64], exports: &mut [u64])
    requires s_value { read_of s.now ≡ Ok c }
    requires imports_value { (imports.old ≡ zeros) × (exports.old ≡ zeros) }
    ensures { Metered (columns_of s.now c) imports.new exports.new }
{
    let section = sheet::asking::section_of(s, c, Boundary::SECTION);
    for j in 0..c.boundaries {
        let b = rows::boundary_of(octets::row_at(section, j));
        let a = b.agent as usize;
        add_reading(imports, a, b.import, b.factor);
        add_reading(exports, a, b.export, b.factor);
    }
}

// What one agent took, delivered and consumed, in whole kWh: of a retailer what it consumed, of a generator the other two; and whether it
// is a retailer that delivers more than it takes.
#[derive(Clone, Copy)]
struct Whole {
    taken: u32,
    given: u32,
    used: u32,
    over: bool,
}

// A retailer's imports less its exports, rounded once; a generator's each by itself.
#[tactic(auto, unfolding(sums::specs::Sums::pick))]
fn whole_of(kind: u32, import: u64, export: u64) -> Whole
    requires { (import ≤ most_exact) × (export ≤ most_exact) }
    ensures { (result.taken ≡ pick (not (carries_losses kind)) (rounded import))
        × (result.given ≡ pick (not (carries_losses kind)) (rounded export))
        × (result.used ≡ pick (carries_losses kind) (rounded (import - export)))
        × (result.over ≡ (carries_losses kind && ltb import export)) }
{
    if rows::carries_losses(kind) {
        return Whole {
            taken: 0,
            given: 0,
            used: to_whole(import.saturating_sub(export)),
            over: import < export,
        };
    }
    Whole {
        taken: to_whole(import),
        given: to_whole(export),
        used: 0,
        over: false,
    }
}

// v of a small generator, 0 of any other agent.
#[tactic(auto, unfolding(sums::specs::Sums::pick))]
fn of_small(kind: u32, v: u32) -> u32
    ensures { result ≡ pick (is_outside kind) v }
{
    if rows::is_outside(kind) { v } else { 0 }
}

// A retailer that delivers more than it takes.
fn is_over(kind: u32, import: u64, export: u64) -> bool
    ensures { result ≡ (carries_losses kind && ltb import export) }
{
    rows::carries_losses(kind) & (import < export)
}

// The lowest such agent.
fn first_over<'a>(
    kinds: &[u32],
    imports: &'a [u64; Agent::MOST],
    exports: &'a [u64; Agent::MOST],
    n: usize,
) -> Option<usize>
    requires { (n ≤ most_agents) × (n ≤ length kinds.now) }
    ensures { result ≡ found n (first n
        (λ a. carries_losses (at kinds.now a) && ltb (at imports.now a) (at exports.now a))) }
{
    for a in 0..n {
        if is_over(kinds[a], imports[a], exports[a]) {
            return Some(a);
        }
    }
    None
}

// The same, looked for only where there is any.
fn first_if<'a>(
    any: bool,
    kinds: &[u32],
    imports: &'a [u64; Agent::MOST],
    exports: &'a [u64; Agent::MOST],
    n: usize,
) -> Option<usize>
    requires { (n ≤ most_agents) × (n ≤ length kinds.now) × (any ≡ false → (a : ℕ) → a < n
        → (carries_losses (at kinds.now a) && ltb (at imports.now a) (at exports.now a)) ≡ false) }
    ensures { result ≡ found n (first n
        (λ a. carries_losses (at kinds.now a) && ltb (at imports.now a) (at exports.now a))) }
{
    if any {
        first_over(kinds, imports, exports, n)
    } else {
        None
    }
}

// Nothing is lost, or there is somebody to carry it.
fn carried(losses: u32, consumed: u32) -> bool
    ensures { result ≡ (eqb losses 0 || ltb 0 consumed) }
{
    (losses == 0) | (0 < consumed)
}

// Refusals 7 to 9, in this order.
fn judge(over: Option<usize>, entering: u32, leaving: u32, consumed: u32) -> Verdict
    requires { IfSome over (λ a. a < most_agents) }
    ensures { result ≡ weighed_by over entering leaving consumed }
{
    if let Some(a) = over {
        return refusals::refuse(Refusal::EXPORTS, a as u32);
    }
    if entering < leaving {
        return refusals::refuse(Refusal::GAIN, 0);
    }
    if carried(entering - leaving, consumed) {
        return Ok(());
    }
    refusals::refuse(Refusal::UNSHARED, 0)
}

// What all agents come to: the first retailer that delivers more than it takes; the energy that enters the system, what retailers
// consumed, and what generators took.
#[derive(Clone, Copy)]
struct Metering {
    over: Option<usize>,
    entering: u32,
    consumed: u32,
    drawn: u32,
}

// What each agent is, took, delivered and consumed in whole kWh, each into its column, by one pass over the agents.
fn sort_out<'a>(
    s: &[u8],
    c: Counts,
    imports: &'a [u64; Agent::MOST],
    exports: &'a [u64; Agent::MOST],
    kinds: &mut [u32],
    taken: &mut [u32],
    given: &mut [u32],
    used: &mut [u32],
) -> Metering
    requires s_value { read_of s.now ≡ Ok c }
    requires metered { Metered (columns_of s.now c) imports.now exports.now × (c.agents ≤ length kinds.old)
        × (c.agents ≤ length taken.old) × (c.agents ≤ length given.old) × (c.agents ≤ length used.old) }
    ensures { Read (columns_of s.now c) c.agents kinds.old kinds.new
        taken.old taken.new given.old given.new used.old used.new result }
{
    let section = sheet::asking::section_of(s, c, Agent::SECTION);
    let n = c.agents;
    let mut any = false;
    let mut entering: u32 = 0;
    let mut consumed: u32 = 0;
    let mut drawn: u32 = 0;
    for a in 0..n {
        let kind = rows::agent_of(octets::row_at(section, a)).kind;
        let w = whole_of(kind, imports[a], exports[a]);
        kinds[a] = kind;
        taken[a] = w.taken;
        given[a] = w.given;
        used[a] = w.used;
        any |= w.over;
        entering += w.given;
        consumed += w.used;
        drawn += w.taken;
    }
    Metering {
        over: first_if(any, kinds, imports, exports, n),
        entering,
        consumed,
        drawn,
    }
}

// The same, the readings summed up before. The exact columns are gone when it is done.
fn read_columns(
    s: &[u8],
    c: Counts,
    kinds: &mut [u32; Agent::MOST],
    taken: &mut [u32; Agent::MOST],
    given: &mut [u32; Agent::MOST],
    used: &mut [u32; Agent::MOST],
) -> Metering
    requires { read_of s.now ≡ Ok c }
    ensures { Read (columns_of s.now c) c.agents kinds.old kinds.new
        taken.old taken.new given.old given.new used.old used.new result }
{
    let mut imports = [0u64; Agent::MOST];
    let mut exports = [0u64; Agent::MOST];
    meter(s, c, &mut imports, &mut exports);
    sort_out(s, c, &imports, &exports, kinds, taken, given, used)
}

// What retailers demand in all, and what small generators deliver.
#[derive(Clone, Copy)]
struct Demanded {
    all: u32,
    small: u32,
}

// What each agent consumed becomes its commercial demand with its share, and what it delivered its own energy: that demand, or what a small
// generator delivers.
fn add_shares(
    kinds: &[u32; Agent::MOST],
    shares: &[u32; Agent::MOST],
    n: usize,
    commercial: &mut [u32],
    own: &mut [u32],
) -> Demanded
    requires { (n ≤ most_agents) × (n ≤ length commercial.old) × (n ≤ length own.old)
        × SharesFit kinds.now shares.now n commercial.old own.old }
    ensures { WithShares kinds.now shares.now n commercial.old commercial.new
        own.old own.new result }
{
    let mut all: u32 = 0;
    let mut small: u32 = 0;
    for a in 0..n {
        let demand = commercial[a] + shares[a];
        let delivered = of_small(kinds[a], own[a]);
        commercial[a] = demand;
        own[a] = demand + delivered;
        all += demand;
        small += delivered;
    }
    Demanded { all, small }
}

// The balance of a sheet that reading accepts with these counts, agent by agent, into the caller's columns; each of them serves for what
// leads to it before it has what is promised, so that of a refused sheet nothing is said of them.
pub fn weigh_read(
    s: &[u8],
    c: Counts,
    kinds: &mut [u32; Agent::MOST],
    shares: &mut [u32; Agent::MOST],
    commercial: &mut [u32; Agent::MOST],
    own: &mut [u32; Agent::MOST],
    imports: &mut [u32; Agent::MOST],
) -> Result<Weight, Refusal>
    requires { read_of s.now ≡ Ok c }
    ensures { Weighing (balance_verdict (columns_of s.now c)) (columns_of s.now c)
        (ledger kinds.old shares.old commercial.old own.old imports.old)
        (ledger kinds.new shares.new commercial.new own.new imports.new) result }
{
    let n = c.agents;
    let m = read_columns(s, c, kinds, imports, own, commercial);
    let leaving = m.consumed + m.drawn;
    judge(m.over, m.entering, leaving, m.consumed)?;
    let losses = m.entering - leaving;
    let _ = share::share(losses, &commercial[..n], shares);
    let d = add_shares(kinds, shares, n, commercial, own);
    let demand = d.all + m.drawn;
    Ok(Weight {
        losses,
        demand,
        target: demand - d.small,
    })
}
