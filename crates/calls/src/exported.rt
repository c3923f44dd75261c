// The functions for C, called as C calls them; the line says what each returns.
use crate::printer;
use std::io;

pub(crate) fn share<P: Print>(
    rt: &P,
    amount: u32,
    weights: &[u32],
    out: &mut [u32],
) -> io::Result<()> {
    printer::returned(rt, capi::naomhral_share(amount, weights, out))
}

pub(crate) fn read<P: Print>(rt: &P, bytes: &[u8], answer: &mut [u32]) -> io::Result<()> {
    printer::returned(rt, capi::naomhral_read(bytes, answer))
}

pub(crate) fn write<P: Print>(
    rt: &P,
    agents: &[u32],
    boundaries: &[u32],
    plants: &[u32],
    contracts: &[u32],
    out: &mut [u8],
    answer: &mut [u32],
) -> io::Result<()> {
    printer::returned(
        rt,
        capi::naomhral_write(agents, boundaries, plants, contracts, out, answer),
    )
}

pub(crate) fn settle<P: Print>(
    rt: &P,
    bytes: &[u8],
    figures: &mut [u32],
    money: &mut [i64],
    schedule: &mut [u32],
    amounts: &mut [u32],
    summary: &mut [u32],
) -> io::Result<()> {
    printer::returned(
        rt,
        capi::naomhral_settle(bytes, figures, money, schedule, amounts, summary),
    )
}

pub(crate) fn page<P: Print>(
    rt: &P,
    bytes: &[u8],
    out: &mut [u8],
    answer: &mut [u32],
) -> io::Result<()> {
    printer::returned(rt, capi::naomhral_page(bytes, out, answer))
}

// Puts a list at the front of another that has room for it.
fn put(list: &[u32], out: &mut [u32]) {
    if list.len() <= out.len() {
        out[..list.len()].copy_from_slice(list);
    }
}

// A statement: our own settlement of the sheet, with other numbers at the fronts of its lists.
pub(crate) fn check<P: Print>(
    rt: &P,
    bytes: &[u8],
    price: u32,
    a: &[u32],
    b: &[u32],
    c: &[u32],
    figures: &mut [u32],
    money: &mut [i64],
    schedule: &mut [u32],
    amounts: &mut [u32],
    answer: &mut [u32],
) -> io::Result<()> {
    let mut summary = [0u32; 5];
    capi::naomhral_settle(bytes, figures, money, schedule, amounts, &mut summary);
    put(a, figures);
    put(b, schedule);
    put(c, amounts);
    printer::returned(
        rt,
        capi::naomhral_check(bytes, price, figures, money, schedule, amounts, answer),
    )
}

pub(crate) fn why_plant<P: Print>(
    rt: &P,
    bytes: &[u8],
    plant: u32,
    answer: &mut [u32],
) -> io::Result<()> {
    printer::returned(rt, capi::why::naomhral_why_plant(bytes, plant, answer))
}

pub(crate) fn why_contract<P: Print>(
    rt: &P,
    bytes: &[u8],
    contract: u32,
    answer: &mut [u32],
) -> io::Result<()> {
    printer::returned(
        rt,
        capi::why::naomhral_why_contract(bytes, contract, answer),
    )
}

pub(crate) fn mend<P: Print>(
    rt: &P,
    bytes: &[u8],
    copy: &mut [u8],
    report: &mut [u32],
    answer: &mut [u32],
) -> io::Result<()> {
    printer::returned(
        rt,
        capi::mending::naomhral_mend(bytes, copy, report, answer),
    )
}

pub(crate) fn entry<P: Print>(
    rt: &P,
    bytes: &[u8],
    summary: &[u32],
    figures: &[u32],
    answer: &mut [u32],
) -> io::Result<()> {
    printer::returned(
        rt,
        capi::day_book::naomhral_entry(bytes, summary, figures, answer),
    )
}
