// The cases of a test program: standard input holds one behind another. Numbers have 32 bits, the low byte first.
ghost use Rattle.std.specs.Prelude.{◌≡◌, length, true};
ghost use Rattle.input.specs.Cases.{CaseWithin, GotWithin, NumberTaken, SheetTaken, CaseTaken, NumbersTaken, ListTaken};

use std::io::{Error, Read};

// Why a number or a case is not whole: the input ends within it or it has more bytes than there is room for, or a read failed.
#[derive(Clone, Copy)]
pub enum Broken {
    Cut,
    Failed(Error),
}

impl From<Error> for Broken {
    ghost use Rattle.input.specs.declared.cases.Broken.{Broken};

    ghost from_gives = { λ why broken. broken ≡ Broken.Failed why };

    fn from(why: Error) -> Self {
        Broken::Failed(why)
    }
}

// The next number, and the size of the next case's sheet in bytes: none where the input ends before it.
pub type Next = Result<Option<u32>, Broken>;

pub type Case = Result<Option<usize>, Broken>;

pub fn next_number<R: Read>(from: &mut R) -> Next
    ensures { NumberTaken (R.remaining from.old) (R.remaining from.new) result }
{
    let mut head = [0u8; 4];
    let n = crate::read_all(from, &mut head)?;
    if n == 0 {
        return Ok(None);
    }
    if n < 4 {
        return Err(Broken::Cut);
    }
    Ok(Some(u32::from_le_bytes(head)))
}

// A number for each cell; false where the input ends within them.
pub fn read_numbers<R: Read>(from: &mut R, out: &mut [u32]) -> bool
    ensures { result ≡ true → NumbersTaken (R.remaining from.old) (R.remaining from.new) out.new }
{
    for cell in out.iter_mut() {
        let Ok(Some(x)) = next_number(from) else {
            return false;
        };
        *cell = x;
    }
    true
}

// A list is a count and that many numbers: how many were read, or none where the input ends within them or there is no room for them.
pub fn read_list<R: Read>(from: &mut R, out: &mut [u32]) -> Option<usize>
    ensures within { GotWithin result (length out.new) }
    ensures cells { ListTaken (R.remaining from.old) (R.remaining from.new) result out.new }
{
    let Ok(Some(count)) = next_number(from) else {
        return None;
    };
    let n = count as usize;
    if out.len() < n {
        return None;
    }
    if read_numbers(from, &mut out[..n]) {
        Some(n)
    } else {
        None
    }
}

// The bytes of a case whose length is known; one that is longer than the buffer counts as cut.
fn read_sheet<R: Read>(from: &mut R, buf: &mut [u8], n: usize) -> Case
    ensures within { CaseWithin result (length buf.new) }
    ensures bytes { SheetTaken (R.remaining from.old) (R.remaining from.new) result n buf.new }
{
    if buf.len() < n {
        return Err(Broken::Cut);
    }
    let got = crate::read_all(from, &mut buf[..n])?;
    if got < n {
        return Err(Broken::Cut);
    }
    Ok(Some(n))
}

// A case is a length and that many bytes.
pub fn read_case<R: Read>(from: &mut R, buf: &mut [u8]) -> Case
    ensures within { CaseWithin result (length buf.new) }
    ensures bytes { CaseTaken (R.remaining from.old) (R.remaining from.new) result buf.new }
{
    match next_number(from)? {
        Some(n) => read_sheet(from, buf, n as usize),
        None => Ok(None),
    }
}

// Tells on standard error why there is no further case, unless the input just ended.
pub fn complain<E: Eprint>(rt: &E, case: Case) {
    let _ = match case {
        Err(Broken::Cut) => rt.eprint("the input ends within a case, or a case is too long\n"),
        Err(Broken::Failed(_)) => rt.eprint("the input cannot be read\n"),
        Ok(_) => Ok(()),
    };
}
