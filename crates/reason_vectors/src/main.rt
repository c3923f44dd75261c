// Reads sheets from standard input and prints, by the functions for C, why each plant and each contract got what it got: the number of the
// reason, and of a group that shares the remainder and the total. A sheet that settles for a plant and not for a contract is told in a
// line that no expected answer has.
// A case is a 32-bit length, the low byte first, and that many bytes.
#![tactic(auto)]

use std::io;

// More cases than these are not looked at.
const MOST_CASES: u64 = 1000000;

// The reason whose remainder and total are told.
const SHARES: u32 = 5;

// A number that no plant and no contract of a sheet has.
const NOBODY: u32 = 4294967295;

fn print_plant<P: Print>(rt: &P, sheet: &[u8], i: u32) -> io::Result<()> {
    let mut answer = [0u32; 8];
    capi::why::naomhral_why_plant(sheet, i, &mut answer);
    print!(rt; " {}", answer[2])
}

fn print_plants<P: Print>(rt: &P, sheet: &[u8], n: u32) -> io::Result<()> {
    rt.print("plants")?;
    for i in 0..n {
        print_plant(rt, sheet, i)?;
    }
    rt.print("\n")
}

fn print_contract<P: Print>(rt: &P, sheet: &[u8], j: u32) -> io::Result<()> {
    let mut answer = [0u32; 8];
    capi::why::naomhral_why_contract(sheet, j, &mut answer);
    let reason = answer[2];
    if reason == SHARES {
        print!(rt; " {reason}:{}:{}", answer[6], answer[7])
    } else {
        print!(rt; " {reason}:0:0")
    }
}

fn print_contracts<P: Print>(rt: &P, sheet: &[u8], n: u32) -> io::Result<()> {
    rt.print("contracts")?;
    for j in 0..n {
        print_contract(rt, sheet, j)?;
    }
    rt.print("\n")
}

// What is asked of nobody is refused: with 12 where the sheet settles.
fn run_case<P: Print>(rt: &P, number: u64, sheet: &[u8]) -> io::Result<()> {
    print!(rt; "case {number}\n")?;
    let mut answer = [0u32; 8];
    let mut other = [0u32; 8];
    let refusal = capi::why::naomhral_why_plant(sheet, NOBODY, &mut answer);
    let again = capi::why::naomhral_why_contract(sheet, NOBODY, &mut other);
    if refusal != again {
        return rt.print("two answers\n");
    }
    if refusal != 12 {
        return print!(rt; "refused {} {}\n", answer[0], answer[1]);
    }
    let mut counts = [0u32; 6];
    capi::naomhral_read(sheet, &mut counts);
    print_plants(rt, sheet, counts[4])?;
    print_contracts(rt, sheet, counts[5])
}

fn main(rt: HostRuntime) -> io::Result<()> {
    let mut buf = [0u8; 65536];
    let mut from = rt.reader();
    for number in 0..MOST_CASES {
        let case = input::cases::read_case(&mut from, &mut buf);
        let Ok(Some(n)) = case else {
            input::cases::complain(&rt, case);
            break;
        };
        run_case(&rt, number, &buf[..n])?;
    }
    Ok(())
}
