// `desk check SHEET STATEMENT`: whether the administrator's statement of an hour could be right, and where it differs from ours.
use crate::differences::Stated;
use crate::{differences, faults, meanings};
use channels::{fail, files, front, say, say_refused};
use limits::{Agent, Contract, Plant};
use refusals::{Refusal, Verdict};
use sheet::Counts;
use std::env::Env;
use std::io;
use std::rt::Files;

fn say_why<P: Print>(rt: &P, why: Refusal) -> io::Result<()> {
    say_refused(rt, why)?;
    meanings::say_meaning(rt, why.number)
}

fn say_verdict<P: Print>(rt: &P, v: Verdict) -> io::Result<()> {
    match v {
        Ok(()) => say(rt, b"accepted\n"),
        Err(why) => say_why(rt, why),
    }
}

// Of a sheet that is accepted, with these counts.
fn check_text<P: Print>(rt: &P, sheet: &[u8], c: Counts, text: &[u8]) -> io::Result<()> {
    let mut figures = [0u32; Agent::CELLS * Agent::MOST];
    let mut money = [0i64; Agent::MOST];
    let mut schedule = [0u32; Plant::MOST];
    let mut amounts = [0u32; Contract::MOST];
    let stated = stating::read(
        text,
        c,
        &mut figures,
        &mut money,
        &mut schedule,
        &mut amounts,
    );
    match stated {
        Err(wrong) => faults::say_wrong(rt, wrong, true),
        Ok(price) => {
            let v = checking::check(sheet, price, &figures, &money, &schedule, &amounts);
            say_verdict(rt, v)?;
            let theirs = Stated {
                price,
                figures: &figures,
                money: &money,
                schedule: &schedule,
                amounts: &amounts,
            };
            differences::say_all(rt, sheet, theirs)
        }
    }
}

fn check_sheet<P: Print>(rt: &P, sheet: &[u8], text: &[u8]) -> io::Result<()> {
    match sheet::read(sheet) {
        Ok(c) => check_text(rt, sheet, c, text),
        Err(why) => say_why(rt, why),
    }
}

// The sheet is the file that word `from` names, the statement's text the one that word `theirs` names.
pub(crate) fn run<R: Env + Files + Print + Eprint>(rt: &R, from: usize, theirs: usize) {
    let mut sheet = [0u8; files::ROOM];
    let mut text = [0u8; files::TEXT];
    let Ok(n) = files::read_named(rt, from, &mut sheet) else {
        return;
    };
    let Ok(m) = files::read_text(rt, theirs, &mut text) else {
        return;
    };
    if let Err(why) = check_sheet(rt, front(&sheet, n), front(&text, m)) {
        fail(rt, "desk: the answer cannot be written", why);
    }
}
