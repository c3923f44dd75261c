// Sheets and statements as text, for C and Rust.
ghost use Rattle.std.specs.Prelude.{◌≡◌, ◌≤◌, length};
ghost use Rattle.sums.specs.Lists.{at, Filled};
ghost use Rattle.hour.specs.Answer.{lent};
ghost use Rattle.capi.specs.TextTold.{narrowed, fault_told, printed_answer, SheetTextTold, StatementTextTold, made_answer};
ghost use Rattle.capi.specs.TextTold.{MadeTold, statement_answer, stated_counts, StatementTold};

use crate::tell;
use refusals::Refusal;
use sheet::Counts;
use text::{Fault, WrongLine};
use typing::Unmade;

// A length or a line in 32 bits, and the greatest such number where it has more.
fn narrow(n: usize) -> u32
    ensures { result ≡ narrowed n }
{
    n.min(u32::MAX as usize) as u32
}

// What is wrong with a line, as a number behind the refusals.
#[tactic(auto, using(crate::proofs::ToldText::fault_few))]
fn fault_told(f: Fault) -> u32
    ensures { result ≡ fault_told f }
{
    30 + text::number_of(Some(f))
}

// What was put into a buffer: the answer's numbers go to the front of the caller's list, and the first is returned.
fn tell_printed(p: Result<usize, Refusal>, answer: &mut [u32]) -> u32
    requires { 3 ≤ length answer.old }
    ensures { (result ≡ at (printed_answer p) 0) × Filled 0 answer.old answer.new 3 (at (printed_answer p)) }
{
    match p {
        Ok(n) => tell(&[0, 0, narrow(n)], answer),
        Err(why) => tell(&[why.number, why.place, 0], answer),
    }
}

// Puts the text of a sheet into a lent buffer: number, place and length go to the answer list, and the number is returned.
pub fn naomhral_sheet_text(sheet: &[u8], out: &mut [u8], answer: &mut [u32]) -> u32
    ensures { SheetTextTold sheet.now out.old answer.old result
        out.new answer.new }
{
    if answer.len() < 3 {
        return Refusal::ROOM;
    }
    tell_printed(typing::texts::write(sheet, out), answer)
}

// Settles a sheet and puts the hour into a lent buffer as a statement's text: number, place and length go to the answer list, and the
// number is returned.
pub fn naomhral_statement_text(sheet: &[u8], out: &mut [u8], answer: &mut [u32]) -> u32
    ensures { StatementTextTold sheet.now out.old answer.old result
        out.new answer.new }
{
    if answer.len() < 3 {
        return Refusal::ROOM;
    }
    tell_printed(telling::tell(sheet, out), answer)
}

// The same of making a sheet.
fn tell_made(m: Result<usize, Unmade>, answer: &mut [u32]) -> u32
    requires { 4 ≤ length answer.old }
    ensures { (result ≡ at (made_answer m) 0) × Filled 0 answer.old answer.new 4 (at (made_answer m)) }
{
    match m {
        Ok(n) => tell(&[0, 0, narrow(n), 0], answer),
        Err(Unmade::Wrong(w)) => tell(&[fault_told(w.fault), 0, 0, narrow(w.line)], answer),
        Err(Unmade::Refused(line, why)) => {
            tell(&[why.number, why.place, 0, narrow(line)], answer)
        }
    }
}

// Makes a sheet from its text: number, place, length and the line of what is wrong or refused go to the answer list, and the number is
// returned.
pub fn naomhral_make_sheet(text: &[u8], out: &mut [u8], answer: &mut [u32]) -> u32
    ensures { MadeTold text.now out.old answer.old result out.new answer.new }
{
    if answer.len() < 4 {
        return Refusal::ROOM;
    }
    tell_made(typing::make(text, out), answer)
}

// The same of reading a statement.
fn tell_statement(s: Result<u32, WrongLine>, answer: &mut [u32]) -> u32
    requires { 3 ≤ length answer.old }
    ensures { (result ≡ at (statement_answer s) 0) × Filled 0 answer.old answer.new 3 (at (statement_answer s)) }
{
    match s {
        Ok(price) => tell(&[0, 0, price], answer),
        Err(w) => tell(&[fault_told(w.fault), narrow(w.line), 0], answer),
    }
}

// Reads a statement's text into the four lent lists, by how many agents, plants and contracts its sheet has: number, line and price go
// to the answer list, and the number is returned.
pub fn naomhral_read_statement(
    text: &[u8],
    agents: u32,
    plants: u32,
    contracts: u32,
    figures: &mut [u32],
    money: &mut [i64],
    schedule: &mut [u32],
    amounts: &mut [u32],
    answer: &mut [u32],
) -> u32
    ensures { StatementTold text.now (stated_counts agents plants contracts)
        (lent figures.old money.old schedule.old amounts.old)
        (lent figures.new money.new schedule.new amounts.new)
        answer.old result answer.new }
{
    if answer.len() < 3 {
        return Refusal::ROOM;
    }
    let counts = Counts {
        agents: agents as usize,
        boundaries: 0,
        plants: plants as usize,
        contracts: contracts as usize,
    };
    let told = stating::read(text, counts, figures, money, schedule, amounts);
    tell_statement(told, answer)
}
