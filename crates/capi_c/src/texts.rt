// Sheets and statements as text, for C and Rust.
ghost use Rattle.hour.specs.Answer.{lent};
ghost use Rattle.capi.specs.TextTold.{SheetTextTold, StatementTextTold};
ghost use Rattle.capi.specs.TextTold.{MadeTold, stated_counts, StatementTold};

// Puts the text of a sheet into a lent buffer: number, place and length go to the answer list, and the number is returned.
#[unsafe(no_mangle)]
pub extern "C" fn naomhral_sheet_text(sheet: &[u8], out: &mut [u8], answer: &mut [u32]) -> u32
    ensures { SheetTextTold sheet.now out.old answer.old result
        out.new answer.new }
{
    capi::texts::naomhral_sheet_text(sheet, out, answer)
}

// Settles a sheet and puts the hour into a lent buffer as a statement's text: number, place and length go to the answer list, and the
// number is returned.
#[unsafe(no_mangle)]
pub extern "C" fn naomhral_statement_text(sheet: &[u8], out: &mut [u8], answer: &mut [u32]) -> u32
    ensures { StatementTextTold sheet.now out.old answer.old result
        out.new answer.new }
{
    capi::texts::naomhral_statement_text(sheet, out, answer)
}

// Makes a sheet from its text: number, place, length and the line of what is wrong or refused go to the answer list, and the number is
// returned.
#[unsafe(no_mangle)]
pub extern "C" fn naomhral_make_sheet(text: &[u8], out: &mut [u8], answer: &mut [u32]) -> u32
    ensures { MadeTold text.now out.old answer.old result out.new answer.new }
{
    capi::texts::naomhral_make_sheet(text, out, answer)
}

// Reads a statement's text into the four lent lists, by how many agents, plants and contracts its sheet has: number, line and price go
// to the answer list, and the number is returned.
#[unsafe(no_mangle)]
pub extern "C" fn naomhral_read_statement(
    text: &[u8],
    agents: u32,
    plants: u32,
    contracts: u32,
    figures: &mut [u32],
    money: &mut [i64],
    schedule: &mut [u32],
    amounts: &mut [u32],
    answer: &mut [u32],
) -> u32
    ensures { StatementTold text.now (stated_counts agents plants contracts)
        (lent figures.old money.old schedule.old amounts.old)
        (lent figures.new money.new schedule.new amounts.new)
        answer.old result answer.new }
{
    capi::texts::naomhral_read_statement(
        text, agents, plants, contracts, figures, money, schedule, amounts, answer,
    )
}
