// A day's book as cells in a lent list, for callers in other languages: five cells a place (held, demand, losses, bought, price), place by
// place, and behind them the four totals. Nothing is asked of the cells: a call looks at its one place and at the totals, and refuses
// where no calls from an empty book leave such.
#![tactic(auto)]

ghost use Rattle.std.specs.Prelude.{◌≡◌, ◌+◌, ◌-◌, ◌*◌, ◌≤◌, ◌^◌, ◌<◌, length};
ghost use Rattle.sums.specs.Lists.{at};
ghost use Rattle.book.specs.Book.{blank, holding, counted, fits, moved, slot_verdict, entry_verdict};
ghost use Rattle.book_cells.specs.Cells.{cells_per_place, shaped, carried, day_good, looked_good, room_for, looked_verdict};
ghost use Rattle.book_cells.specs.Cells.{cells_verdict, hour_in, totals_in, put, with_place_cells, Emptied, CellsDo};
ghost use Rattle.book.specs.Told.{Turns};
ghost use Rattle.book_cells.specs.Steps.{Turnable, OwnGood};

use book::{Book, Hour, Place, Totals};
use refusals::{Refusal, Verdict, refuse_unless};

// Where the totals stand, and how many cells there are.
const TOTALS: usize = 120;

const ALL: usize = 124;

// The limits of what a place holds, and the most that the totals of a day can be: kWh, and centavos.
const ENERGY: u64 = Book::ENERGY as u64;

const PRICE: u64 = Book::PRICE as u64;

const DAY_ENERGY: u64 = 96000000000;

const DAY_MONEY: u64 = 96000000000000000;

// The k-th cell, 0 past the end.
fn cell(cells: &[u64], k: usize) -> u64
    ensures { result ≡ at cells.now k }
{
    cells.get(k).copied().unwrap_or(0)
}

// The first cell of an hour's place.
fn start_of(hour: u32) -> usize
    ensures { (result ≡ cells_per_place * hour) × (result < 2 ^ 40) }
{
    5 * (hour as usize)
}

// No number of the place is over its limit.
fn within_limits(demand: u64, losses: u64, bought: u64, price: u64) -> bool
    ensures { result ≡ fits demand losses bought price }
{
    (demand <= ENERGY) & (losses <= ENERGY) & (bought <= ENERGY) & (price <= PRICE)
}

// The place holds an hour, or is empty and has zeros.
fn shape_good(held: u64, demand: u64, losses: u64, bought: u64, price: u64) -> bool
    ensures { result ≡ shaped held demand losses bought price }
{
    (held == 1) | ((held == 0) & (demand == 0) & (losses == 0) & (bought == 0) & (price == 0))
}

// A total holds this part of it, and no more than a day can have.
fn carries(total: u64, part: u64, day: u64) -> bool
    ensures { result ≡ carried total part day }
{
    (part <= total) & (total <= day)
}

// The totals hold these parts.
fn day_good(cells: &[u64], demand: u64, losses: u64, bought: u64, money: u64) -> bool
    ensures { result ≡ day_good cells.now demand losses bought money }
{
    carries(cell(cells, TOTALS), demand, DAY_ENERGY)
        & carries(cell(cells, TOTALS + 1), losses, DAY_ENERGY)
        & carries(cell(cells, TOTALS + 2), bought, DAY_ENERGY)
        & carries(cell(cells, TOTALS + 3), money, DAY_MONEY)
}

// What one place and the totals show: calls from an empty book can have left these cells.
#[tactic(auto, using(crate::proofs::Looked::limits), unfolding(crate::specs::Cells::looked_good))]
fn looked_good(cells: &[u64], hour: u32) -> bool
    ensures { result ≡ looked_good cells.now hour }
{
    let start = start_of(hour);
    let held = cell(cells, start);
    let demand = cell(cells, start + 1);
    let losses = cell(cells, start + 2);
    let bought = cell(cells, start + 3);
    let price = cell(cells, start + 4);
    if within_limits(demand, losses, bought, price) {
        let shape = shape_good(held, demand, losses, bought, price);
        let day = day_good(cells, demand, losses, bought, bought * price);
        shape & day
    } else {
        false
    }
}

fn room_verdict(cells: &[u64]) -> Verdict
    ensures { result ≡ room_for cells.now }
{
    refuse_unless(ALL <= cells.len(), Refusal::ROOM, 0)
}

fn looked_verdict(cells: &[u64], hour: u32) -> Verdict
    ensures { result ≡ looked_verdict cells.now hour }
{
    refuse_unless(looked_good(cells, hour), Refusal::ROOM, 0)
}

// Too few cells, then what the book itself says of the call, then cells that are no book's.
#[tactic(auto, unfolding(crate::specs::Cells::cells_verdict))]
fn cells_verdict(cells: &[u64], hour: u32, own: Verdict) -> Verdict
    ensures { result ≡ cells_verdict cells.now hour own }
{
    room_verdict(cells)?;
    let looked = looked_verdict(cells, hour);
    book::first(own, looked)
}

// Puts numbers into the cells, from a place on.
fn put_at(cells: &mut [u64], start: usize, numbers: &[u64])
    requires { start + length numbers.now ≤ length cells.old }
    ensures { cells.new ≡ put cells.old start numbers.now }
{
    cells[start..start + numbers.len()].copy_from_slice(numbers);
}

// A total with one part taken back and another added.
fn new_total(cells: &[u64], total: usize, old: u64, new: u64) -> u64
    requires { Turns (at cells.now total) old new }
    ensures { result ≡ at cells.now total - old + new }
{
    cell(cells, total) - old + new
}

// The totals with another hour, or none, in a place.
fn new_totals(cells: &[u64], hour: u32, new: Place) -> Totals
    requires { Turnable cells.now hour new }
    ensures { result ≡ moved (totals_in cells.now) (hour_in cells.now hour) (counted new) }
{
    let start = start_of(hour);
    let new = book::counted(new);
    let bought = u64::from(new.bought);
    let old_bought = cell(cells, start + 3);
    let old_money = old_bought * cell(cells, start + 4);
    Totals {
        demand: new_total(cells, TOTALS, cell(cells, start + 1), u64::from(new.demand)),
        losses: new_total(
            cells,
            TOTALS + 1,
            cell(cells, start + 2),
            u64::from(new.losses),
        ),
        bought: new_total(cells, TOTALS + 2, old_bought, bought),
        money: new_total(cells, TOTALS + 3, old_money, bought * u64::from(new.price)),
    }
}

// Puts an hour, or none, into its place, and brings the totals up to date.
fn turn(cells: &mut [u64], hour: u32, new: Place)
    requires { Turnable cells.old hour new }
    ensures { cells.new ≡ with_place_cells cells.old hour new }
{
    let t = new_totals(cells, hour, new);
    let held = u64::from(new.is_some());
    let new = book::counted(new);
    let place = [
        held,
        u64::from(new.demand),
        u64::from(new.losses),
        u64::from(new.bought),
        u64::from(new.price),
    ];
    let totals = [t.demand, t.losses, t.bought, t.money];
    put_at(cells, start_of(hour), &place);
    put_at(cells, TOTALS, &totals);
}

// The same, unless the call's own verdict or the cells refuse it.
fn turn_unless_refused(cells: &mut [u64], hour: u32, own: Verdict, new: Place) -> Verdict
    requires { OwnGood own hour new }
    ensures { CellsDo (cells_verdict cells.old hour own) (with_place_cells cells.old hour new)
        cells.old result cells.new }
{
    cells_verdict(cells, hour, own)?;
    turn(cells, hour, new);
    Ok(())
}

// An empty book: zeros.
pub fn empty(cells: &mut [u64]) -> Verdict
    ensures { Emptied cells.old result cells.new }
{
    room_verdict(cells)?;
    cells[..ALL].fill(0);
    Ok(())
}

// Enters an hour, replacing one held.
pub fn enter(
    cells: &mut [u64],
    hour: u32,
    demand: u32,
    losses: u32,
    bought: u32,
    price: u32,
) -> Verdict
    ensures { CellsDo (cells_verdict cells.old hour (entry_verdict hour demand losses bought price))
        (with_place_cells cells.old hour (holding demand losses bought price)) cells.old result
        cells.new }
{
    let own = book::entry_verdict(hour, demand, losses, bought, price);
    let new = Hour {
        demand,
        losses,
        bought,
        price,
    };
    turn_unless_refused(cells, hour, own, Some(new))
}

// Removes an hour.
pub fn remove(cells: &mut [u64], hour: u32) -> Verdict
    ensures { CellsDo (cells_verdict cells.old hour (slot_verdict hour))
        (with_place_cells cells.old hour blank) cells.old result cells.new }
{
    let own = book::hour_verdict(hour);
    turn_unless_refused(cells, hour, own, None)
}
