// Mending a sheet, for C and Rust.
ghost use Rattle.capi.specs.MendTold.{MendTold};

// Mends a sheet into a lent copy and a lent report of three cells a change: number, place and how many bytes were changed go to the
// answer list, and the number is returned.
#[unsafe(no_mangle)]
pub extern "C" fn naomhral_mend(
    sheet: &[u8],
    copy: &mut [u8],
    report: &mut [u32],
    answer: &mut [u32],
) -> u32
    ensures { MendTold sheet.now copy.old report.old answer.old result
        copy.new report.new answer.new }
{
    capi::mending::naomhral_mend(sheet, copy, report, answer)
}
