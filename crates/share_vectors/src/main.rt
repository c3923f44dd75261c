// Reads cases of the sharing rule from standard input and prints the shares of each.
// A case is an amount, a count and that many weights, all 32-bit numbers, the low byte first.
#![tactic(auto)]

ghost use Rattle.std.specs.Prelude.{◌≤◌, length};
ghost use Rattle.share.specs.Share.{most_weights};

use input::cases::Broken;
use refusals::Verdict;
use share::MOST_WEIGHTS;
use std::io;
use std::io::Read;

fn print_list<P: Print>(rt: &P, list: &[u32]) -> io::Result<()> {
    for x in list {
        print!(rt; " {x}")?;
    }
    Ok(())
}

// Shares over the weights, and prints the answer.
fn print_shares<P: Print>(rt: &P, amount: u32, weights: &[u32]) -> io::Result<()>
    requires { length weights.now ≤ most_weights }
{
    let mut out = [0u32; MOST_WEIGHTS];
    match share::share(amount, weights, &mut out) {
        Ok(()) => print_list(rt, &out[..weights.len()]),
        Err(r) => print!(rt; " refused {} {}", r.number, r.place),
    }
}

// The next case, and whether to go on.
fn run_case<P: Print + Eprint, R: Read>(rt: &P, from: &mut R, case: u64) -> io::Result<bool> {
    let Ok(Some(amount)) = input::cases::next_number(from) else {
        return Ok(false);
    };
    let mut weights = [0u32; MOST_WEIGHTS];
    let Some(n) = input::cases::read_list(from, &mut weights) else {
        input::cases::complain(rt, Err(Broken::Cut));
        return Ok(false);
    };
    print!(rt; "share {case}")?;
    print_shares(rt, amount, &weights[..n])?;
    rt.print("\n")?;
    Ok(true)
}

fn main(rt: HostRuntime) -> io::Result<()> {
    let mut from = rt.reader();
    for case in 0..1000000u64 {
        if !run_case(&rt, &mut from, case)? {
            break;
        }
    }
    Ok(())
}
