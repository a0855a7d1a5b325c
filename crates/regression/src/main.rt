// The same program on what it refuses and on boards of all kinds, with the answers of an independent model. A run on other input is a crate with a main of its own.
#![tactic(auto)]

fn main(rt: HostRuntime) -> anyhow::Result<()> {
    console::run(&rt)
}
