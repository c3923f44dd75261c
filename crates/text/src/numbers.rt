// A field as a number.
ghost use Rattle.std.specs.Prelude.{◌≡◌, ◌<◌, min, cond, pos, neg_ℤ, Some, None};
ghost use Rattle.text.specs.Fields.{is_number, worth, parsed, owed_as, owed_in};

use super::Fault;

const HELD: u64 = 1_000_000_000_000_000_000;

// What a field of digits is worth, held at 10^18: ten times that and a digit more fit 64 bits.
fn digits(s: &[u8]) -> Option<u64>
    ensures { result ≡ cond (is_number s.now) (Some (min (worth 0 s.now) 1000000000000000000)) None }
{
    if s.is_empty() {
        return None;
    }
    let mut value: u64 = 0;
    for &b in s {
        if !b.is_ascii_digit() {
            return None;
        }
        value = (10 * value + u64::from(b - b'0')).min(HELD);
    }
    Some(value)
}

#[tactic(auto, using(crate::proofs::Fields::parsed_held), unfolding(crate::specs::Fields::parsed, crate::specs::Fields::parsed_as))]
pub(crate) fn number(s: &[u8]) -> Result<u32, Fault>
    ensures { result ≡ parsed s.now }
{
    let value = digits(s).ok_or(Fault::NotANumber)?;
    u32::try_from(value).or(Err(Fault::TooLarge))
}

// A number below 0 or not.
fn with_sign(below: bool, value: u64) -> i64
    requires { value < 1000000000000000000 }
    ensures { result ≡ cond below (neg_ℤ (pos value)) (pos value) }
{
    let x = value as i64;
    if below { -x } else { x }
}

fn owed(below: bool, s: &[u8]) -> Result<i64, Fault>
    ensures { result ≡ owed_as below (is_number s.now) (worth 0 s.now) }
{
    match digits(s) {
        None => Err(Fault::NotANumber),
        Some(value) if value < HELD => Ok(with_sign(below, value)),
        Some(_) => Err(Fault::TooLarge),
    }
}

pub(crate) fn money(s: &[u8]) -> Result<i64, Fault>
    ensures { result ≡ owed_in s.now }
{
    match s.strip_prefix(b"-") {
        Some(unsigned) => owed(true, unsigned),
        None => owed(false, s),
    }
}
