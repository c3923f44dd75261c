// Sums by agent.
ghost use Rattle.checking.specs.Parts.{CountableWide, Totalled};

// Adds to each agent's cell what its rows come to.
pub(crate) fn tally(keys: &[u32], values: &[u32], out: &mut [u64])
    requires { CountableWide keys.now values.now out.old }
    ensures { Totalled keys.now values.now out.old out.new }
{
    for (j, &key) in keys.iter().enumerate() {
        out[key as usize] += u64::from(values[j]);
    }
}
