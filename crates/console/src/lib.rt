// What the desk program does. It only reads, calls and writes, so no contract can say more of it than that it is safe and ends.
#![tactic(auto)]

mod hours;
mod mending;
mod why;

ghost use Rattle.std.specs.Prelude.{◌≤◌};

use channels::{fail, files, say};
use std::env::Env;
use std::io;
use std::rt::Files;

// Prints the page of a sheet, or says on standard error that it cannot be written.
fn print_page<R: Print + Eprint>(rt: &R, sheet: &[u8]) {
    let mut text = [0u8; page::MOST];
    match page::page(sheet, &mut text) {
        Err(_) => hint(rt, "desk: the page is longer than any page can be\n"),
        Ok(n) => {
            if let Err(why) = say(rt, &text[..n]) {
                fail(rt, "desk: the page cannot be written", why);
            }
        }
    }
}

// The page of the sheet on standard input.
fn settle_input<R: io::Input + Print + Eprint>(rt: &R) {
    let mut sheet = [0u8; files::ROOM];
    let mut from = rt.reader();
    match input::read_all(&mut from, &mut sheet) {
        Ok(n) => print_page(rt, &sheet[..n]),
        Err(why) => fail(rt, "desk: the sheet cannot be read", why),
    }
}

fn hint<E: Eprint>(rt: &E, text: &str) {
    let _ = rt.eprint(text);
}

fn say_usage<E: Eprint>(rt: &E) {
    hint(rt, "desk: it is used so:\n");
    hint(
        rt,
        "    desk < SHEET              prints the page of an hour sheet\n",
    );
    hint(
        rt,
        "    desk day FILE ..          prints the pages of a day's 24 sheets, or none\n",
    );
    hint(
        rt,
        "    desk mend SHEET OUT       writes a mended copy to the new file OUT, and prints what was changed\n",
    );
    hint(
        rt,
        "    desk why SHEET plant 3    says in a sentence why a plant got what it got; so does contract 7\n",
    );
    hint(
        rt,
        "    desk text SHEET           prints a sheet as text, a row a line\n",
    );
    hint(
        rt,
        "    desk sheet TEXT OUT       writes the sheet of such a text to the new file OUT\n",
    );
    hint(
        rt,
        "    desk statement SHEET      prints the settled hour as a statement, which is text too\n",
    );
    hint(
        rt,
        "    desk check SHEET TEXT     says whether such a statement could be right, and what differs from ours\n",
    );
}

// `mend` takes a sheet and a name for its copy.
fn run_mend<R: Env + Files + Print + Eprint>(rt: &R, next: usize, end: usize)
    requires { next ≤ end }
{
    if end - next == 2 {
        mending::run(rt, next, next + 1);
    } else {
        say_usage(rt);
    }
}

// What the word asks for, with the words from number `next` up to, not including, `end` behind it; else how the program is used.
fn run_word<R: Env + Files + Print + Eprint>(rt: &R, word: &[u8], next: usize, end: usize)
    requires { next ≤ end }
{
    let is = |name: &[u8]| words::is_same(word, name);
    if is(b"day") {
        hours::run(rt, next, end);
    } else if is(b"mend") {
        run_mend(rt, next, end);
    } else if is(b"why") {
        why::run(rt, next, end);
    } else if !papers::run(rt, word, next, end) {
        say_usage(rt);
    }
}

// What the program's words from number `first` up to, not including, `end` ask for: the command is word `first`, and what it is about
// stands behind it. With no words the page of the sheet on standard input.
pub fn run_words<R: Env + Files + io::Input + Print + Eprint>(rt: &R, first: usize, end: usize) {
    if end <= first {
        settle_input(rt);
        return;
    }
    let mut word = [0u8; 16];
    let n = words::word(rt, first, &mut word);
    run_word(rt, &word[..n], first + 1, end);
}

// What all words behind the program's own name ask for.
pub fn run<R: Env + Files + io::Input + Print + Eprint>(rt: &R) {
    run_words(rt, 1, words::count(rt));
}
