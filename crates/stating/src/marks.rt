// The lines of a statement's text, judged: each row of the sheet has one.
ghost use Rattle.std.specs.Prelude.{◌≡◌, true, cond, ◌+◌, ◌<◌, ◌≤◌, eqb, None};
ghost use Rattle.sums.specs.Lists.{list_to};
ghost use Rattle.sheet.specs.Reading.{counts_good};
ghost use Rattle.text.specs.Faults.{unless_wrong};
ghost use Rattle.stating.specs.Rows.{by_word, asks, rows_for, rows_ahead, all_rows, row_number, row_fault, statement_fault};
ghost use Rattle.stating.specs.Rows.{with_mark, mark_row, mark_line, marked_in, complete, last_fault};
ghost use Rattle.stating.specs.Steps.{seen, MarksFit};

use super::{PRICE, Seen};
use limits::{Agent, Boundary, Contract, Plant};
use sheet::Counts;
use text::{Fault, Line, WrongLine};

fn by_word(k: u32, agent: usize, plant: usize, contract: usize, price: usize) -> usize
    ensures { result ≡ by_word k agent plant contract price 0 }
{
    match k {
        Agent::SECTION => agent,
        Plant::SECTION => plant,
        Contract::SECTION => contract,
        PRICE => price,
        _ => 0,
    }
}

// How many numbers are behind the word k.
#[tactic(auto, unfolding(crate::specs::Rows::asks))]
fn asked(k: u32) -> usize
    ensures { result ≡ asks k }
{
    by_word(k, 8, 2, 2, 1)
}

#[tactic(auto, unfolding(crate::specs::Rows::rows_for))]
fn rows_for(c: Counts, k: u32) -> usize
    ensures { result ≡ rows_for c k }
{
    by_word(k, c.agents, c.plants, c.contracts, 1)
}

fn rows_ahead(c: Counts, k: u32) -> usize
    requires { all_rows c ≤ 385 }
    ensures { (result ≡ rows_ahead c k) × (result ≤ 385) }
{
    by_word(k, 1, 1 + c.agents, 1 + c.agents + c.plants, 0)
}

#[tactic(auto, unfolding(crate::specs::Rows::row_number))]
fn row_number(l: Line) -> usize
    ensures { (result ≡ row_number l) × (result < 4294967296) }
{
    if l.word == PRICE {
        0
    } else {
        l.numbers[0] as usize
    }
}

// A line about a row that the sheet has not, or that had its line already.
#[tactic(auto, unfolding(crate::specs::Rows::row_fault))]
fn row_fault(l: Line, c: Counts, marks: &[u8]) -> Option<Fault>
    requires { MarksFit c marks.now }
    ensures { result ≡ cond (eqb l.word 0) None (row_fault c marks.now l) }
{
    if l.word == 0 {
        return None;
    }
    let n = row_number(l);
    if rows_for(c, l.word) <= n {
        return Some(Fault::Rows);
    }
    if marks[rows_ahead(c, l.word) + n] == 0 {
        None
    } else {
        Some(Fault::Twice)
    }
}

#[tactic(auto, unfolding(crate::specs::Rows::statement_fault))]
fn statement_fault(l: Line, c: Counts, marks: &[u8]) -> Option<Fault>
    requires { MarksFit c marks.now }
    ensures { result ≡ statement_fault c marks.now l }
{
    text::line_fault(l, l.word != Boundary::SECTION, asked(l.word)).or(row_fault(l, c, marks))
}

// The mark of a line's row, where the line is right and has one: a mark is a number, as `Marked` has it.
#[tactic(auto, unfolding(crate::specs::Rows::with_mark))]
fn mark(marks: &mut [u8], l: Line, c: Counts, f: Option<Fault>)
    requires { MarksFit c marks.old × (f ≡ statement_fault c marks.old l) }
    ensures { marks.new ≡ with_mark c marks.old l }
{
    if f.is_some() || l.word == 0 {
        return;
    }
    let n = row_number(l);
    marks[rows_ahead(c, l.word) + n] = 1;
}

#[tactic(auto, unfolding(crate::specs::Rows::mark_row))]
fn mark_row(j: Seen, l: Line, c: Counts, marks: &mut [u8]) -> Seen
    requires { (j.line < 18446744073709551615) × MarksFit c marks.old }
    ensures { seen result marks.new ≡ mark_row c (seen j marks.old) l }
{
    let f = statement_fault(l, c, marks);
    mark(marks, l, c, f);
    Seen {
        line: j.line + 1,
        fault: f,
    }
}

#[tactic(auto, unfolding(crate::specs::Rows::mark_line))]
fn mark_line(j: Seen, s: &[u8], c: Counts, marks: &mut [u8]) -> Seen
    requires { (j.line < 18446744073709551615) × MarksFit c marks.old }
    ensures { seen result marks.new ≡ mark_line c (seen j marks.old) s.now }
{
    if j.fault.is_some() {
        return j;
    }
    mark_row(j, text::read_line(s), c, marks)
}

fn mark_lines(s: &[u8], c: Counts, marks: &mut [u8]) -> Seen
    requires { MarksFit c marks.old × (marks.old ≡ list_to (λ i. 0) (all_rows c)) }
    ensures { seen result marks.new ≡ marked_in c s.now }
{
    let mut j = Seen {
        line: 0,
        fault: None,
    };
    for line in s.split(|b| *b == b'\n') {
        j = mark_line(j, line, c, marks);
    }
    j
}

fn is_complete(marks: &[u8]) -> bool
    ensures { result ≡ complete marks.now }
{
    !marks.contains(&0)
}

// The first line that is wrong; where none is, the last one with a row that is missing.
#[tactic(auto, unfolding(crate::specs::Rows::last_fault))]
fn judge_with(s: &[u8], c: Counts, marks: &mut [u8]) -> Result<(), WrongLine>
    requires { MarksFit c marks.old × (marks.old ≡ list_to (λ i. 0) (all_rows c)) }
    ensures { result ≡ unless_wrong (marked_in c s.now).line (last_fault (marked_in c s.now)) tt }
{
    let j = mark_lines(s, c, marks);
    let missing = if is_complete(marks) {
        None
    } else {
        Some(Fault::Missing)
    };
    match j.fault.or(missing) {
        None => Ok(()),
        Some(fault) => Err(WrongLine {
            line: j.line,
            fault,
        }),
    }
}

pub(crate) fn judge(s: &[u8], c: Counts) -> Result<(), WrongLine>
    requires { counts_good c ≡ true }
    ensures { result ≡ unless_wrong (marked_in c s.now).line (last_fault (marked_in c s.now)) tt }
{
    let mut marks = [0u8; 1 + Agent::MOST + Plant::MOST + Contract::MOST];
    let n = 1 + c.agents + c.plants + c.contracts;
    judge_with(s, c, &mut marks[..n])
}
