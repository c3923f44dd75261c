// Text into words and numbers: lines apart by LF, fields by spaces, tabs, commas and semicolons. Every string of bytes is a text.
#![tactic(auto)]

mod numbers;
pub mod puts;
mod words;

ghost use Rattle.std.specs.Prelude.{◌≡◌, true, false, cond, ◌+◌, ◌-◌, ◌≤◌, ◌<◌, ltb, Some, None};
ghost use Rattle.sums.specs.Lists.{at};
ghost use Rattle.text.specs.Faults.{fault_number};
ghost use Rattle.text.specs.Lines.{named, numbered, owing, skipped, step, over, pieces, separator, empty_line, read_line, line_fault};
ghost use Rattle.text.specs.declared.Fault.{Fault};

// What is wrong with a line.
#[derive(Clone, Copy)]
pub enum Fault {
    Word = 1,
    Few = 2,
    Many = 3,
    NotANumber = 4,
    TooLarge = 5,
    Rows = 6,
    Twice = 7,
    Missing = 8,
}

// A line that is wrong, counted from 1, and how.
#[derive(Clone, Copy)]
pub struct WrongLine {
    pub line: usize,
    pub fault: Fault,
}

// A line, read: how many fields it has, its word, the first seven numbers behind it, the eighth as money, and what is wrong.
#[derive(Clone, Copy)]
pub struct Line {
    pub count: usize,
    pub word: u32,
    pub numbers: [u32; 7],
    pub money: i64,
    pub fault: Option<Fault>,
}

// A fault as a number, 0 for none.
#[tactic(auto, unfolding(crate::specs::Faults::fault_number))]
pub fn number_of(f: Option<Fault>) -> u32
    ensures { result ≡ fault_number f }
{
    match f {
        Some(f) => f as u32,
        None => 0,
    }
}

#[tactic(auto, unfolding(crate::specs::Lines::named))]
fn with_word(l: Line, word: u32) -> Line
    ensures { result ≡ named l word }
{
    Line {
        count: 1,
        word,
        fault: (word == 0).then_some(Fault::Word),
        ..l
    }
}

#[tactic(auto, unfolding(crate::specs::Lines::numbered))]
fn with_number(l: Line, p: Result<u32, Fault>) -> Line
    requires { (1 ≤ l.count) × (l.count < 8) }
    ensures { result ≡ numbered l p }
{
    match p {
        Ok(v) => {
            let mut numbers = l.numbers;
            numbers[l.count - 1] = v;
            Line {
                count: l.count + 1,
                numbers,
                fault: None,
                ..l
            }
        }
        Err(f) => Line {
            count: l.count + 1,
            fault: Some(f),
            ..l
        },
    }
}

#[tactic(auto, unfolding(crate::specs::Lines::owing))]
fn with_money(l: Line, p: Result<i64, Fault>) -> Line
    requires { l.count < 18446744073709551615 }
    ensures { result ≡ owing l p }
{
    match p {
        Ok(money) => Line {
            count: l.count + 1,
            money,
            fault: None,
            ..l
        },
        Err(f) => Line {
            count: l.count + 1,
            fault: Some(f),
            ..l
        },
    }
}

fn with_one_more(l: Line) -> Line
    requires { l.count < 18446744073709551615 }
    ensures { result ≡ skipped l }
{
    Line {
        count: l.count + 1,
        ..l
    }
}

#[tactic(auto, unfolding(crate::specs::Lines::step))]
fn with_field(l: Line, field: &[u8]) -> Line
    requires { l.count < 18446744073709551615 }
    ensures { result ≡ step l field.now }
{
    if l.fault.is_some() || field.is_empty() {
        return l;
    }
    match l.count {
        0 => with_word(l, words::word_of(field)),
        1..=7 => with_number(l, numbers::number(field)),
        8 => with_money(l, numbers::money(field)),
        _ => with_one_more(l),
    }
}

fn blank_line() -> Line
    ensures { result ≡ empty_line }
{
    Line {
        count: 0,
        word: 0,
        numbers: [0; 7],
        money: 0,
        fault: None,
    }
}

fn is_separator(b: u8) -> bool
    ensures { result ≡ separator b }
{
    matches!(b, b' ' | b'\t' | b',' | b';' | b'\r')
}

fn read_fields(s: &[u8]) -> Line
    ensures { result ≡ over step empty_line (pieces s.now) }
{
    let mut l = blank_line();
    for field in s.split(|b| is_separator(*b)) {
        l = with_field(l, field);
    }
    l
}

// What is wrong with so many numbers where so many are wanted.
fn count_fault(count: usize, wanted: usize) -> Option<Fault>
    ensures { result ≡ cond (ltb count wanted) (Some Fault.Few) (cond (ltb wanted count) (Some Fault.Many) None) }
{
    if count < wanted {
        Some(Fault::Few)
    } else if wanted < count {
        Some(Fault::Many)
    } else {
        None
    }
}

// A line of text, without its line end.
#[tactic(auto, unfolding(crate::specs::Lines::read_line))]
pub fn read_line(s: &[u8]) -> Line
    ensures { result ≡ read_line s.now }
{
    if s.starts_with(b"#") {
        blank_line()
    } else {
        read_fields(s)
    }
}

// What is wrong with a line by itself, where its word is known or not and wants so many numbers.
#[tactic(auto, unfolding(crate::specs::Lines::line_fault))]
pub fn line_fault(l: Line, known: bool, wanted: usize) -> Option<Fault>
    ensures { result ≡ line_fault known wanted l }
{
    if !known {
        return Some(Fault::Word);
    }
    if l.fault.is_some() || l.count == 0 {
        return l.fault;
    }
    count_fault(l.count - 1, wanted)
}
