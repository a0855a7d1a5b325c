// The same program on what it refuses, on boards of all kinds and on small and random firmware, with the answers of an independent model. A run on other input is a crate with a main of its own.
#![tactic(auto)]

fn main(rt: HostRuntime) -> anyhow::Result<()> {
    desk::run(&rt)
}
