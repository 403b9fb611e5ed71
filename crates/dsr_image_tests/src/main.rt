//! Reads cases from the standard input and prints what is told of each text with an image.
//!
//! A line `##### NAME` begins a section, and the lines below it, up to the next such line, are its
//! cases: `layouts`, `models`, `updates` or `calls`, each as the file of that name says.
#![tactic(auto)]

mod built_models;
mod bytes;
mod calls;
mod entries;
mod headings;
mod layouts;
mod models;
mod updates;
mod words;

use anyhow::bail;
use dsr_test_text::Lines;
use headings::heading_of;
use std::alloc::Global;
use std::io;

fn add_section(lines: &mut Lines, alloc: Global, part: &str) -> anyhow::Result<()> {
    let (name, section) = heading_of(part)?;
    match name {
        "layouts" => layouts::add_cases(lines, alloc, section),
        "models" => models::add_cases(lines, alloc, section),
        "updates" => updates::add_cases(lines, alloc, section),
        "calls" => calls::add_cases(lines, alloc, section),
        _ => bail!("no section: {name}"),
    }
}

fn main(rt: HostRuntime) -> anyhow::Result<()> {
    let alloc = rt.alloc();
    let input = io::read_to_string(alloc, rt.stdin())?;
    let mut lines = Lines::new(alloc);
    for part in input.split("##### ").skip(1) {
        add_section(&mut lines, alloc, part)?;
    }
    rt.print(lines.whole()?)?;
    Ok(())
}
