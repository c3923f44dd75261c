// The numbers of a statement's text, each at the place of its row. A text that was judged names no other place: what a list does not
// have is passed over, so that nothing need be known of the text.
ghost use Rattle.std.specs.Prelude.{◌≡◌, cond, ◌+◌, ◌*◌, eqb, drop, set};
ghost use Rattle.std.proofs.lemmas.List.Edits.{sets};
ghost use Rattle.sums.specs.Lists.{at};
ghost use Rattle.hour.specs.Lines.{cells_per_agent};
ghost use Rattle.stating.specs.Rows.{figures_from, money_from, second_from, price_in};
ghost use Rattle.stating.specs.Read.{stated_in};
ghost use Rattle.hour.specs.Answer.{lent};
ghost use Rattle.stating.specs.Steps.{with_line};

use super::PRICE;
use limits::{Agent, Contract, Plant};
use text::Line;

fn put<T: Copy>(out: &mut [T], k: usize, v: T)
    ensures { out.new ≡ set out.old k v }
{
    if k < out.len() {
        out[k] = v;
    }
}

// The six numbers behind an agent's.
fn put_six(out: &mut [u32], l: Line)
    ensures { out.new ≡ sets out.old (cells_per_agent * at l.numbers 0) (drop 1 l.numbers) }
{
    let k = Agent::CELLS * l.numbers[0] as usize;
    for (i, &n) in l.numbers[1..].iter().enumerate() {
        put(out, k + i, n);
    }
}

fn put_figures(out: &mut [u32], l: Line)
    ensures { out.new ≡ figures_from l out.old }
{
    if l.word == Agent::SECTION {
        put_six(out, l);
    }
}

fn put_money(out: &mut [i64], l: Line)
    ensures { out.new ≡ money_from l out.old }
{
    if l.word == Agent::SECTION {
        put(out, l.numbers[0] as usize, l.money);
    }
}

fn put_second(out: &mut [u32], l: Line, word: u32)
    ensures { out.new ≡ second_from word l out.old }
{
    if l.word == word {
        put(out, l.numbers[0] as usize, l.numbers[1]);
    }
}

// The price that a line has, or else the one so far.
fn price_or(l: Line, price: u32) -> u32
    ensures { result ≡ cond (eqb l.word 5) (at l.numbers 0) price }
{
    if l.word == PRICE { l.numbers[0] } else { price }
}

// A line's numbers.
fn put_line(
    l: Line,
    figures: &mut [u32],
    money: &mut [i64],
    schedule: &mut [u32],
    amounts: &mut [u32],
)
    ensures { lent figures.new money.new schedule.new amounts.new
        ≡ with_line l (lent figures.old money.old schedule.old amounts.old) }
{
    put_figures(figures, l);
    put_money(money, l);
    put_second(schedule, l, Plant::SECTION);
    put_second(amounts, l, Contract::SECTION);
}

pub(crate) fn fill(
    s: &[u8],
    figures: &mut [u32],
    money: &mut [i64],
    schedule: &mut [u32],
    amounts: &mut [u32],
) -> u32
    ensures { (lent figures.new money.new schedule.new amounts.new
        ≡ stated_in s.now (lent figures.old money.old schedule.old amounts.old))
        × (result ≡ price_in s.now) }
{
    let mut price: u32 = 0;
    for line in s.split(|b| *b == b'\n') {
        let l = text::read_line(line);
        price = price_or(l, price);
        put_line(l, figures, money, schedule, amounts);
    }
    price
}
