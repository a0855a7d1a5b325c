// The bench program: answers a script on standard input. Its own script here is the worked example of the README.
#![tactic(auto)]

fn main(rt: HostRuntime) -> anyhow::Result<()> {
    console::run(&rt)
}
