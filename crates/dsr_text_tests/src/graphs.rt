// What is found out about specifications, in steps: what updates there are, what they may change,
// which of them are listed, and what the graph over them is.
//
// A line `=== QUESTION NAME` begins a case. The lines below it, up to the next such line, are its
// text. The questions are
// - `updates`: for each constraint the facts that it uses and the sets of which its variables are
//   known to be members, and for each literal the updates that are tried;
// - `effects`: for each literal what the updates that are tried for it may change;
// - `listed`: for each literal the updates that are listed for it;
// - `graph`: for each listed template of each literal which constraints it breaks and why, and
//   which literal it falsifies; and on which constraints each one relies.
//
// Fields stand as the numbers of their structure and their place there.
ghost use Rattle.dsr_meaning.specs.Typed.{IsTyped};

mod edges;
mod effects;
mod facts;
mod listed;
mod templates;

use crate::headings::heading_of;
use anyhow::bail;
use dsr_graph::graph;
use dsr_graph_theory::the_first_kept_are_taken;
use dsr_ir::Spec;
use dsr_spec::specification;
use dsr_test_text::Lines;
use std::alloc::Global;

/// What is asked of a specification.
#[derive(Clone, Copy)]
enum Question {
    Updates,
    Effects,
    Listed,
}

fn add_name(lines: &mut Lines, spec: &Spec, number: u32) {
    if let Some(constraint) = spec.constraints.items().get(number as usize) {
        lines.word("  constraint ");
        lines.name(&constraint.name);
        lines.word("\n");
    }
}

fn add_constraint(
    lines: &mut Lines,
    alloc: Global,
    spec: &Spec,
    question: Question,
    number: u32,
) -> anyhow::Result<()>
    requires typed { IsTyped spec.now }
{
    match question {
        Question::Updates => {
            add_name(lines, spec, number);
            facts::add_facts(lines, alloc, spec, number)?;
            templates::add_literals(lines, alloc, spec, number)
        }
        Question::Effects => {
            add_name(lines, spec, number);
            effects::add_literals(lines, alloc, spec, number)
        }
        Question::Listed => listed::add_constraint(lines, alloc, spec, number),
    }
}

// The numbers of all constraints.
fn count(spec: &Spec) -> anyhow::Result<u32> {
    let Ok(count) = u32::try_from(spec.constraints.items().len()) else {
        bail!("more constraints than there are numbers");
    };
    Ok(count)
}

fn add_constraints(
    lines: &mut Lines,
    alloc: Global,
    spec: &Spec,
    question: Question,
) -> anyhow::Result<()>
    requires typed { IsTyped spec.now }
{
    for number in 0..count(spec)? {
        add_constraint(lines, alloc, spec, question, number)?;
    }
    Ok(())
}

fn add_graph(lines: &mut Lines, alloc: Global, spec: &Spec) -> anyhow::Result<()>
    requires typed { IsTyped spec.now }
{
    let Ok(graph) = graph(alloc, spec) else {
        bail!("no memory");
    };
    for number in 0..count(spec)? {
        edges::add_constraint(lines, spec, &graph, number);
    }
    Ok(())
}

fn add_spec(lines: &mut Lines, alloc: Global, asked: &str, spec: &Spec) -> anyhow::Result<()>
    requires typed { IsTyped spec.now }
{
    match asked {
        "updates" => add_constraints(lines, alloc, spec, Question::Updates),
        "effects" => add_constraints(lines, alloc, spec, Question::Effects),
        "listed" => add_constraints(lines, alloc, spec, Question::Listed),
        "graph" => add_graph(lines, alloc, spec),
        _ => bail!("no question: {asked}"),
    }
}

fn add_case(lines: &mut Lines, alloc: Global, part: &str) -> anyhow::Result<()> {
    let (heading, text) = heading_of(part)?;
    let Some((asked, name)) = heading.split_once(' ') else {
        bail!("a heading without a name: {heading}");
    };
    lines.word(name);
    lines.word("\n");
    match specification(alloc, text.as_bytes()) {
        Ok(Some(spec)) => add_spec(lines, alloc, asked, &spec),
        Ok(None) => bail!("{name} is no specification"),
        Err(_) => bail!("no memory"),
    }
}

/// The answers to the cases of a section.
pub fn add_cases(lines: &mut Lines, alloc: Global, section: &str) -> anyhow::Result<()> {
    the_first_kept_are_taken();
    for part in section.split("=== ").skip(1) {
        add_case(lines, alloc, part)?;
    }
    Ok(())
}
