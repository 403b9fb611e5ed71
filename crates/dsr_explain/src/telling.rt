// What is told of a specification alone.
ghost use Rattle.dsr_meaning.specs.Typed.{IsTyped};

use crate::reading::Meaning;
use dsr_lint::push_lint;
use dsr_ways::{push_graph, push_repairs};
use dsr_wording::Text;

/// What is told of a specification.
#[derive(Clone, Copy)]
pub enum Telling {
    /// How each constraint would be repaired.
    Ways,
    /// What it says nothing about.
    Lint,
    /// Its dependence graph.
    Graph,
}

/// Appends what is told of a specification.
pub fn push_telling(text: &mut Text, meaning: &Meaning, telling: Telling)
    requires { IsTyped meaning.now.spec }
{
    match telling {
        Telling::Ways => push_repairs(text, &meaning.spec, &meaning.tree),
        Telling::Lint => push_lint(text, &meaning.spec),
        Telling::Graph => push_graph(text, &meaning.spec),
    }
}
