// What is wrong with a line of text: its number, the fault's, and a sentence.
use std::io;
use text::{Fault, WrongLine};

// The words that a line may begin with.
fn of_word(statement: bool) -> &'static str {
    if statement {
        "It begins with none of the words price, agent, plant and contract.\n"
    } else {
        "It begins with none of the words agent, boundary, plant and contract.\n"
    }
}

// Which rows there are.
fn of_rows(statement: bool) -> &'static str {
    if statement {
        "The sheet has no such row: rows are counted from 0.\n"
    } else {
        "Too many rows: a sheet has at most 64 agents, 256 boundaries, 64 plants and 256 contracts.\n"
    }
}

// The sentence, a line of its own.
fn sentence(f: Fault, statement: bool) -> &'static str {
    match f {
        Fault::Word => of_word(statement),
        Fault::Few => "It has fewer numbers than its word asks for.\n",
        Fault::Many => "It has more numbers than its word asks for.\n",
        Fault::NotANumber => "A field is no number: digits alone, and a minus only before money.\n",
        Fault::TooLarge => "A number is too large: 4294967295 at most, and money of 18 digits.\n",
        Fault::Rows => of_rows(statement),
        Fault::Twice => "The row was stated on an earlier line.\n",
        Fault::Missing => "The text ends here, and a row of the sheet or the price is missing.\n",
    }
}

// Of a statement's text, or else of a sheet's.
pub(crate) fn say_wrong<P: Print>(rt: &P, wrong: WrongLine, statement: bool) -> io::Result<()> {
    let WrongLine { line, fault } = wrong;
    print!(rt;
        "wrong {line} {}\n{}",
        text::number_of(Some(fault)),
        sentence(fault, statement)
    )
}
