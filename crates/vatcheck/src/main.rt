//! Checks formulas, one a line, against the family in the working folder: a digit for each product.
#![tactic(auto)]

use files::bytes_or_none;
use report::console::Streams;
use report::serve::serve;
use report::session::Session;

fn run(rt: &HostRuntime) -> anyhow::Result<()> {
    let family = bytes_or_none(rt, "family.bin")?;
    let actions = bytes_or_none(rt, "actions.txt")?;
    let options = bytes_or_none(rt, "options.txt")?;
    let mut console = Streams {
        reader: rt.stdin(),
        writer: rt.stdout(),
    };
    match Session::open(rt.alloc(), &family, actions, options)? {
        Ok(session) => serve(rt.alloc(), session, &mut console)?,
        Err(unopened) => rt.println(unopened)?,
    }
    Ok(())
}

fn main(rt: HostRuntime) -> anyhow::Result<()> {
    run(&rt)
}
