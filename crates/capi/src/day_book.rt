// A day's book for C and Rust: cells that the caller keeps. Each call returns the refusal's number, 0 where all is fine; the place is the
// hour, and 0 of refusal 11.
ghost use Rattle.book.specs.Book.{blank, holding, slot_verdict, entry_verdict};
ghost use Rattle.book_cells.specs.Cells.{cells_verdict, with_place_cells};
ghost use Rattle.capi.specs.BookTold.{EmptiedTold, CellsTold, EntryTold};

use crate::{number_of, tell};
use hour::Summary;
use refusals::Refusal;

// An empty book.
pub fn naomhral_book_empty(book: &mut [u64]) -> u32
    ensures { EmptiedTold book.old result book.new }
{
    number_of(book_cells::empty(book))
}

// Enters an hour, replacing one held.
pub fn naomhral_book_enter(
    book: &mut [u64],
    hour: u32,
    demand: u32,
    losses: u32,
    bought: u32,
    price: u32,
) -> u32
    ensures { CellsTold (cells_verdict book.old hour (entry_verdict hour demand losses bought price))
        (with_place_cells book.old hour (holding demand losses bought price)) book.old result book.new }
{
    number_of(book_cells::enter(book, hour, demand, losses, bought, price))
}

// Removes an hour.
pub fn naomhral_book_remove(book: &mut [u64], hour: u32) -> u32
    ensures { CellsTold (cells_verdict book.old hour (slot_verdict hour))
        (with_place_cells book.old hour blank) book.old result book.new }
{
    number_of(book_cells::remove(book, hour))
}

// What is entered of an hour, from its sheet and from the summary and the figures that `naomhral_settle` left: number, place, demand,
// losses, bought kWh and price go to the answer list, and the number is returned.
pub fn naomhral_entry(sheet: &[u8], summary: &[u32], figures: &[u32], answer: &mut [u32]) -> u32
    ensures { EntryTold sheet.now summary.now figures.now
        answer.old result answer.new }
{
    if answer.len() < 6 {
        return Refusal::ROOM;
    }
    if summary.len() < 5 {
        return tell(&[Refusal::ROOM, 0, 0, 0, 0, 0], answer);
    }
    let settled = Summary {
        number: summary[0],
        place: summary[1],
        price: summary[2],
        demand: summary[3],
        losses: summary[4],
    };
    match entry::entry_of(sheet, settled, figures) {
        Ok(h) => tell(&[0, 0, h.demand, h.losses, h.bought, h.price], answer),
        Err(why) => tell(&[why.number, why.place, 0, 0, 0, 0], answer),
    }
}
