// Mending a sheet, for C and Rust.
ghost use Rattle.capi.specs.MendTold.{MendTold};

use crate::tell;
use refusals::Refusal;

// Mends a sheet into a lent copy and a lent report of three cells a change: number, place and how many bytes were changed go to the
// answer list, and the number is returned.
#[tactic(auto, using(crate::proofs::ToldMend::done_few))]
pub fn naomhral_mend(sheet: &[u8], copy: &mut [u8], report: &mut [u32], answer: &mut [u32]) -> u32
    ensures { MendTold sheet.now copy.old report.old answer.old result
        copy.new report.new answer.new }
{
    if answer.len() < 3 {
        return Refusal::ROOM;
    }
    match mend::mend(sheet, copy, report) {
        Ok(n) => tell(&[0, 0, n as u32], answer),
        Err(why) => tell(&[why.number, why.place, 0], answer),
    }
}
