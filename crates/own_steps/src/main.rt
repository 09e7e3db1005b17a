//! Prints which transitions each product of a family really has.
#![tactic(auto)]

use files::bytes_or_none;
use report::listing::own_steps;

fn run(rt: &HostRuntime) -> anyhow::Result<()> {
    let family = bytes_or_none(rt, "family.bin")?;
    rt.print(own_steps(rt.alloc(), &family)?)?;
    Ok(())
}

fn main(rt: HostRuntime) -> anyhow::Result<()> {
    run(&rt)
}
