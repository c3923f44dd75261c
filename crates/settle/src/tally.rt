// Sums by agent.
ghost use Rattle.settle.specs.Parts.{Countable, Tallied};

// Adds to each agent's cell what its rows come to.
pub(crate) fn tally(keys: &[u32], values: &[u32], out: &mut [u32])
    requires { Countable keys.now values.now out.old }
    ensures { Tallied keys.now values.now out.old out.new }
{
    for (&key, &value) in keys.iter().zip(values) {
        out[key as usize] += value;
    }
}
