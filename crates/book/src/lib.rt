// A day's book of 24 places with four totals beside them. A call changes one place and the totals, where they stand.
#![tactic(auto)]

ghost use Rattle.std.specs.Prelude.{◌≡◌, ◌+◌, ◌*◌, ◌-◌};
ghost use Rattle.refusals.specs.Refusals.{or_else};
ghost use Rattle.refusals.specs.Refusals.{Verdict};
ghost use Rattle.book.specs.Book.{blank, holding, counted, moved, empty_book, fits, slot_verdict};
ghost use Rattle.book.specs.Book.{numbers_verdict, entry_verdict, entered, removed, Kept, Does};
ghost use Rattle.book.specs.Told.{told_of, slot_of, Turns, Room, Carries};

use refusals::{Refusal, Verdict, refuse_unless};

#[derive(Clone, Copy, Default)]
pub struct Hour {
    pub demand: u32,
    pub losses: u32,
    pub bought: u32,
    pub price: u32,
}

// A place is empty, or holds an hour.
pub type Place = Option<Hour>;

#[derive(Clone, Copy, Default)]
pub struct Totals {
    pub demand: u64,
    pub losses: u64,
    pub bought: u64,
    pub money: u64,
}

#[derive(Clone, Copy)]
pub struct Book {
    pub places: [Place; 24],
    pub totals: Totals,
}

impl Book {
    pub const HOURS: u32 = 24;

    pub const ENERGY: u32 = 4000000000;

    pub const PRICE: u32 = 1000000;
}

// What a call makes of one place and of the totals, and its answer.
#[derive(Clone, Copy)]
pub struct Told {
    pub place: Place,
    pub totals: Totals,
    pub verdict: Verdict,
}

// What a place counts in the totals: 0 in each where it is empty.
pub fn counted(place: Place) -> Hour
    ensures { result ≡ counted place }
{
    place.unwrap_or_default()
}

pub fn empty() -> Book
    ensures { result ≡ empty_book }
{
    Book {
        places: [None; 24],
        totals: Totals::default(),
    }
}

pub fn hour_verdict(hour: u32) -> Verdict
    ensures { result ≡ slot_verdict hour }
{
    refuse_unless(hour < Book::HOURS, Refusal::ASKED, hour)
}

// One unbranched test: no number is over its limit.
fn fitting(demand: u32, losses: u32, bought: u32, price: u32) -> bool
    ensures { result ≡ fits demand losses bought price }
{
    (demand <= Book::ENERGY)
        & (losses <= Book::ENERGY)
        & (bought <= Book::ENERGY)
        & (price <= Book::PRICE)
}

fn numbers_verdict(hour: u32, demand: u32, losses: u32, bought: u32, price: u32) -> Verdict
    ensures { result ≡ numbers_verdict hour demand losses bought price }
{
    let fits = fitting(demand, losses, bought, price);
    refuse_unless(fits, Refusal::OVER_BOOK, hour)
}

// The first refusal of two.
pub fn first(a: Verdict, b: Verdict) -> Verdict
    ensures { result ≡ or_else a b }
{
    a.and(b)
}

pub fn entry_verdict(hour: u32, demand: u32, losses: u32, bought: u32, price: u32) -> Verdict
    ensures { result ≡ entry_verdict hour demand losses bought price }
{
    let of_hour = hour_verdict(hour);
    let of_numbers = numbers_verdict(hour, demand, losses, bought, price);
    first(of_hour, of_numbers)
}

fn money(bought: u32, price: u32) -> u64
    ensures { result ≡ bought * price }
{
    u64::from(bought) * u64::from(price)
}

// A total with one part taken back and another added.
fn turned(total: u64, old: u64, new: u64) -> u64
    requires { Turns total old new }
    ensures { result ≡ total - old + new }
{
    total - old + new
}

fn totals_moved(t: Totals, old: Hour, new: Hour) -> Totals
    requires { Room t old new }
    ensures { result ≡ moved t old new }
{
    let demand = turned(t.demand, u64::from(old.demand), u64::from(new.demand));
    let losses = turned(t.losses, u64::from(old.losses), u64::from(new.losses));
    let bought = turned(t.bought, u64::from(old.bought), u64::from(new.bought));
    let money = turned(
        t.money,
        money(old.bought, old.price),
        money(new.bought, new.price),
    );
    Totals {
        demand,
        losses,
        bought,
        money,
    }
}

// A place and the totals with a new hour in the place, where the verdict is fine; a refusal is passed on, and nothing changes.
#[tactic(auto, unfolding(crate::specs::Told::told_of))]
fn turned_unless_refused(verdict: Verdict, old: Place, totals: Totals, new: Place) -> Told
    requires { verdict ≡ Ok tt → Room totals (counted old) (counted new) }
    ensures { result ≡ told_of verdict old totals new }
{
    match verdict {
        Ok(()) => Told {
            place: new,
            totals: totals_moved(totals, counted(old), counted(new)),
            verdict,
        },
        Err(_) => Told {
            place: old,
            totals,
            verdict,
        },
    }
}

// What entering an hour makes of its place and the totals.
fn entering(
    old: Place,
    totals: Totals,
    hour: u32,
    demand: u32,
    losses: u32,
    bought: u32,
    price: u32,
) -> Told
    requires { Carries totals (counted old) }
    ensures { result ≡ told_of (entry_verdict hour demand losses bought price) old totals (holding demand losses bought price) }
{
    let verdict = entry_verdict(hour, demand, losses, bought, price);
    let new = Hour {
        demand,
        losses,
        bought,
        price,
    };
    turned_unless_refused(verdict, old, totals, Some(new))
}

// What removing an hour makes of its place and the totals.
fn removing(old: Place, totals: Totals, hour: u32) -> Told
    requires { Carries totals (counted old) }
    ensures { result ≡ told_of (slot_verdict hour) old totals blank }
{
    let verdict = hour_verdict(hour);
    turned_unless_refused(verdict, old, totals, None)
}

// The place that a call looks at: the hour's, and the first where there is no such hour.
#[tactic(auto, unfolding(crate::specs::Told::slot_of))]
fn slot(hour: u32) -> usize
    ensures { result ≡ slot_of hour }
{
    if hour < Book::HOURS { hour as usize } else { 0 }
}

// Enters an hour, replacing one held.
#[tactic(auto, using(crate::proofs::Laws::slot_within))]
pub fn enter(
    book: &mut Book,
    hour: u32,
    demand: u32,
    losses: u32,
    bought: u32,
    price: u32,
) -> Verdict
    requires { Kept book.old }
    ensures { Does (entry_verdict hour demand losses bought price)
        (entered book.old hour demand losses bought price) result book.new }
{
    let at = slot(hour);
    let told = entering(
        book.places[at],
        book.totals,
        hour,
        demand,
        losses,
        bought,
        price,
    );
    book.places[at] = told.place;
    book.totals = told.totals;
    told.verdict
}

// Removes an hour.
#[tactic(auto, using(crate::proofs::Laws::slot_within))]
pub fn remove(book: &mut Book, hour: u32) -> Verdict
    requires { Kept book.old }
    ensures { Does (slot_verdict hour) (removed book.old hour) result book.new }
{
    let at = slot(hour);
    let told = removing(book.places[at], book.totals, hour);
    book.places[at] = told.place;
    book.totals = told.totals;
    told.verdict
}

// What a call leaves of a book that is held by value, and its answer.
#[derive(Clone, Copy)]
pub struct Outcome {
    pub book: Book,
    pub verdict: Verdict,
}

// A book held by value with an hour entered: for whoever has no book to lend.
pub fn with_hour(
    book: Book,
    hour: u32,
    demand: u32,
    losses: u32,
    bought: u32,
    price: u32,
) -> Outcome
    requires { Kept book }
    ensures { Does (entry_verdict hour demand losses bought price) (entered book hour demand losses bought price)
        result.verdict result.book }
{
    let mut lent = book;
    let verdict = enter(&mut lent, hour, demand, losses, bought, price);
    Outcome {
        book: lent,
        verdict,
    }
}

// The same with an hour removed.
pub fn without_hour(book: Book, hour: u32) -> Outcome
    requires { Kept book }
    ensures { Does (slot_verdict hour) (removed book hour) result.verdict result.book }
{
    let mut lent = book;
    let verdict = remove(&mut lent, hour);
    Outcome {
        book: lent,
        verdict,
    }
}
