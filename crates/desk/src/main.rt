// The desk program: crate `console` has what it does, so that other programs can run the same on other inputs.
#![tactic(auto)]

fn main(rt: HostRuntime) {
    console::run(&rt);
}
