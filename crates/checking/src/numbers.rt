// Small numbers' leaves of the tests, each with its whole meaning in its contract.
ghost use Rattle.std.specs.Prelude.{◌≡◌};
ghost use Rattle.statement.specs.Decide.{is_near};

// Less than 1 from the exact proportion: the proportion rounded down, or up.
pub(crate) fn near(a: u32, w: u32, t: u64, x: u32) -> bool
    ensures { result ≡ is_near a w t x }
{
    if t == 0 {
        return false;
    }
    let m = u64::from(a) * u64::from(w);
    let floor = m / t;
    let over = m % t;
    let y = u64::from(x);
    (y == floor) | ((y.saturating_sub(1) == floor) & ((0 < y) & (0 < over)))
}
