// The bench program with machines: answers a script on standard input. Its own script here is a worked example of the README.
#![tactic(auto)]

fn main(rt: HostRuntime) -> anyhow::Result<()> {
    desk::run(&rt)
}
