//! Writes a family's file from text, and prints such a file as text. `family read <family.txt` writes `family.bin` and
//! prints what it says; `family print` prints it alone. The names are those of the word lists `actions.txt` and
//! `options.txt`. All files are in the working folder.
#![tactic(auto)]

use anyhow::{Context, bail};
use family_text::{Vocabulary, print, read};
use files::bytes_or_none;
use std::io::Read;
use std::{env, fs};

const USAGE: &str = "usage: family read <family.txt, or family print";

// The family's file.
const FAMILY: &str = "family.bin";

// Enters the text of the input.
fn enter(rt: &HostRuntime, names: &Vocabulary) -> anyhow::Result<()> {
    let mut text = Vec::new(rt.alloc());
    rt.stdin().read_to_end(&mut text)?;
    let records = read(rt.alloc(), names, &text)?;
    fs::write(rt, FAMILY, records.as_slice()).context("writing family.bin")
}

// Prints what the file says.
fn show(rt: &HostRuntime, names: &Vocabulary) -> anyhow::Result<()> {
    let records = fs::read(rt, FAMILY).context("reading family.bin")?;
    let text = print(rt.alloc(), names, &records)?;
    rt.print(String::from_utf8_lossy(rt.alloc(), &text)?)?;
    Ok(())
}

fn run(rt: &HostRuntime, command: &str) -> anyhow::Result<()> {
    let actions = bytes_or_none(rt, "actions.txt")?;
    let options = bytes_or_none(rt, "options.txt")?;
    let names = Vocabulary::new(&actions, &options)?;
    match command {
        "read" => enter(rt, &names)?,
        "print" => {}
        _ => bail!("no such command; {USAGE}"),
    }
    show(rt, &names)
}

fn main(rt: HostRuntime) -> anyhow::Result<()> {
    match env::args(&rt)?.nth(1) {
        Some(command) => run(&rt, command.as_str()),
        None => Ok(rt.println(USAGE)?),
    }
}
