// The numbers of a section, row after row.
ghost use Rattle.std.specs.Prelude.{◌≡◌, ◌+◌, ◌≤◌, length, take, drop};
ghost use Rattle.std.proofs.Math.Seq.{paste};
ghost use Rattle.sums.specs.Lists.{at, Filled};
ghost use Rattle.typing.specs.Rows.{gather_line, listed};

use super::scans;

// The numbers of a row, at k.
fn put_numbers(out: &mut [u32], k: usize, numbers: &[u32])
    requires { k + length numbers.now ≤ length out.old }
    ensures { out.new ≡ paste out.old k numbers.now (length numbers.now) }
{
    out[k..k + numbers.len()].copy_from_slice(numbers);
}

// A line's numbers, if it is of the section, behind the k that are there.
fn gather_line(s: &[u8], out: &mut [u32], k: usize, section: u32) -> usize
    requires { (k ≤ length out.old) × (length (gather_line section (take k out.old) s.now) ≤ length out.old) }
    ensures { (take result out.new ≡ gather_line section (take k out.old) s.now)
        × (drop result out.new ≡ drop result out.old) × (k ≤ result) × (result ≤ length out.new) }
{
    let l = text::read_line(s);
    if l.word == section {
        let n = scans::wanted(section);
        put_numbers(out, k, &l.numbers[..n]);
        k + n
    } else {
        k
    }
}

// The numbers of a section at the front of a list.
pub(crate) fn gather(s: &[u8], out: &mut [u32], section: u32)
    requires { length (listed section s.now) ≤ length out.old }
    ensures { Filled 0 out.old out.new (length (listed section s.now))
        (at (listed section s.now)) }
{
    let mut k: usize = 0;
    for line in s.split(|b| *b == b'\n') {
        k = gather_line(line, out, k, section);
    }
}
