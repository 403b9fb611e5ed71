//! Reads cases from the standard input and prints what is told of each text alone.
//!
//! A line `##### NAME` begins a section, and the lines below it, up to the next such line, are its
//! cases: `texts`, `declarations`, `specifications` or `graphs`, each as the file of that name
//! says.
#![tactic(auto)]

mod declarations;
mod faults;
mod graphs;
mod headings;
mod specifications;
mod texts;

use anyhow::bail;
use dsr_test_text::Lines;
use headings::heading_of;
use std::alloc::Global;
use std::io;

fn add_section(lines: &mut Lines, alloc: Global, part: &str) -> anyhow::Result<()> {
    let (name, section) = heading_of(part)?;
    match name {
        "texts" => texts::add_cases(lines, alloc, section),
        "declarations" => declarations::add_cases(lines, alloc, section),
        "specifications" => specifications::add_cases(lines, alloc, section),
        "graphs" => graphs::add_cases(lines, alloc, section),
        _ => bail!("no section: {name}"),
    }
}

fn main(rt: HostRuntime) -> anyhow::Result<()> {
    let alloc = rt.alloc();
    let input = io::read_to_string(alloc, rt.stdin())?;
    let mut lines = Lines::new(alloc);
    for part in input.split("##### ").skip(1) {
        add_section(&mut lines, alloc, part)?;
    }
    rt.print(lines.whole()?)?;
    Ok(())
}
