// Why a plant or a contract got what it got, in one sentence that can be read out on the phone: desk why SHEET plant 3.
ghost use Rattle.std.specs.Prelude.{◌≤◌};

use channels::{fail, files, say_refused};
use reasons::{Ahead, ContractCase, ContractReason, Group, PlantCase, PlantReason};
use std::env::Env;
use std::io;
use std::rt::Files;

fn plant_reason(reason: PlantReason) -> &'static str {
    match reason {
        PlantReason::Nothing => "had nothing available",
        PlantReason::Full => "was scheduled to the full",
        PlantReason::Must => "ran only its must-run",
        PlantReason::Last => "was partly scheduled, the last one needed",
        PlantReason::Beyond => "was not reached",
    }
}

fn say_plant<P: Print>(rt: &P, i: u32, k: PlantCase) -> io::Result<()> {
    let reason = plant_reason(k.reason);
    print!(rt;
        "Plant {i} {reason}: {} of {} kWh available",
        k.scheduled, k.available
    )?;
    print!(rt; ", at its price of {} centavos per kWh", k.offer)?;
    print!(rt; "; the bolsa price is {}.\n", k.price)
}

fn contract_reason(reason: ContractReason) -> &'static str {
    match reason {
        ContractReason::Fixed => "is fixed",
        ContractReason::Needed(_) => "is conditional and needed",
        ContractReason::Covered(_) => "is conditional and not needed",
        ContractReason::Fits(_) => "pays what is demanded, in a price group that fits",
        ContractReason::Shares(_) => "pays what is demanded, in the price group that shares",
        ContractReason::Dearer(_) => "pays what is demanded, in a dearer price group",
    }
}

fn say_ahead<P: Print>(rt: &P, v: Ahead, between: &str) -> io::Result<()> {
    print!(rt;
        ", since the {} kWh ahead of it {between} its buyer's demand of {} kWh.\n",
        v.ahead, v.demand
    )
}

fn say_group<P: Print>(rt: &P, v: Group, before: &str) -> io::Result<()> {
    print!(rt;
        ", {before} the {} kWh left when its group was reached, which asks for {} kWh in all.\n",
        v.remainder, v.total
    )
}

// What the reason rests on.
fn say_ground<P: Print>(rt: &P, reason: ContractReason) -> io::Result<()> {
    match reason {
        ContractReason::Fixed => rt.print(", whatever the demand.\n"),
        ContractReason::Needed(v) => say_ahead(rt, v, "are less than"),
        ContractReason::Covered(v) => say_ahead(rt, v, "already cover"),
        ContractReason::Fits(v) => say_group(rt, v, "out of"),
        ContractReason::Shares(v) => say_group(rt, v, "its share of"),
        ContractReason::Dearer(v) => say_group(rt, v, "out of"),
    }
}

fn say_contract<P: Print>(rt: &P, j: u32, k: ContractCase) -> io::Result<()> {
    let reason = k.reason;
    print!(rt; "Contract {j} {}: it is assigned ", contract_reason(reason))?;
    print!(rt;
        "{} of {} kWh at {} centavos per kWh",
        k.amount, k.quantity, k.price
    )?;
    say_ground(rt, reason)
}

fn answer_plant<P: Print>(rt: &P, sheet: &[u8], i: u32) -> io::Result<()> {
    match reasons::why_plant(sheet, i) {
        Ok(k) => say_plant(rt, i, k),
        Err(r) => say_refused(rt, r),
    }
}

fn answer_contract<P: Print>(rt: &P, sheet: &[u8], j: u32) -> io::Result<()> {
    match reasons::why_contract(sheet, j) {
        Ok(k) => say_contract(rt, j, k),
        Err(r) => say_refused(rt, r),
    }
}

// What is asked about: a plant or a contract, by its number.
#[derive(Clone, Copy)]
enum Asked {
    Plant(u32),
    Contract(u32),
}

fn answer_of<P: Print>(rt: &P, sheet: &[u8], asked: Asked) -> io::Result<()> {
    match asked {
        Asked::Plant(i) => answer_plant(rt, sheet, i),
        Asked::Contract(j) => answer_contract(rt, sheet, j),
    }
}

// Of the sheet that word `from` names.
fn answer<R: Env + Files + Print + Eprint>(rt: &R, from: usize, asked: Asked) {
    let mut sheet = [0u8; files::ROOM];
    let Ok(n) = files::read_named(rt, from, &mut sheet) else {
        return;
    };
    if let Err(why) = answer_of(rt, &sheet[..n], asked) {
        fail(rt, "desk: the answer cannot be written", why);
    }
}

fn say_usage<E: Eprint>(rt: &E) {
    let _ = rt.eprint(
        "desk: why takes a sheet, plant or contract, and its number: desk why SHEET plant 3\n",
    );
}

// Word `from` names the sheet, word `of` is `plant` or `contract`, word `which` its number.
fn ask<R: Env + Files + Print + Eprint>(rt: &R, from: usize, of: usize, which: usize) {
    let mut kind = [0u8; 16];
    let n = words::word(rt, of, &mut kind);
    let mut digits = [0u8; 16];
    let m = words::word(rt, which, &mut digits);
    let is = |name: &[u8]| words::is_same(&kind[..n], name);
    match words::number_of(&digits[..m]) {
        Some(i) if is(b"plant") => answer(rt, from, Asked::Plant(i)),
        Some(j) if is(b"contract") => answer(rt, from, Asked::Contract(j)),
        _ => say_usage(rt),
    }
}

// The words behind `why` are those from `next` up to, not including, `end`.
pub(crate) fn run<R: Env + Files + Print + Eprint>(rt: &R, next: usize, end: usize)
    requires { next ≤ end }
{
    if end - next == 3 {
        ask(rt, next, next + 1, next + 2);
    } else {
        say_usage(rt);
    }
}
