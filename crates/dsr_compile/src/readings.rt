// What a text means, or why it means nothing.
ghost use Rattle.std.specs.Prelude.{◌≢◌, ℕ, List, IfOk};
ghost use Rattle.dsr_answers.specs.Refused.{IsRefused};
ghost use Rattle.dsr_compile.specs.Readings.{IsReadingOf};
ghost use Rattle.dsr_parse.specs.Faults.{HasFault};
ghost use Rattle.dsr_parse.specs.declared.parser.SyntaxFault.TheVariants as faults;
ghost use Rattle.dsr_script.specs.Moves.{shown};

use dsr_answers::{meaning_refused, syntax_refused};
use dsr_ir::{NoMemory, Spec};
use dsr_parse::{SyntaxFault, parse};
use dsr_script::Told;
use dsr_spec::spec;
use dsr_tree::Tree;
use std::alloc::Global;

/// What is read of a text.
#[derive(Drop)]
pub enum Reading {
    /// Its tree, and the specification that it means.
    Means(Tree, Spec),
    /// The refusal of a text that means nothing.
    Refused(Told),
}

// The refusal of a text by its syntax. Want of memory refuses nothing.
fn refused_by(alloc: Global, fault: SyntaxFault) -> Result<Told, NoMemory>
    ensures told { IfOk result (λ told. (text : List ℕ) → HasFault text fault → IsRefused text (shown told)) }
    ensures known { IfOk result (λ _. fault ≢ faults.NoMemory) }
{
    match fault {
        SyntaxFault::Token(place) => syntax_refused(alloc, 1, place),
        SyntaxFault::Expected(place) => syntax_refused(alloc, 2, place),
        SyntaxFault::Limit(place) => syntax_refused(alloc, 3, place),
        SyntaxFault::NoMemory => Err(NoMemory),
    }
}

/// Reads a text.
pub fn read(alloc: Global, text: &[u8]) -> Result<Reading, NoMemory>
    ensures { IfOk result (IsReadingOf text.now) }
{
    let tree = match parse(alloc, text) {
        Ok(tree) => tree,
        Err(fault) => return Ok(Reading::Refused(refused_by(alloc, fault)?)),
    };
    match spec(alloc, &tree) {
        Ok(spec) => Ok(Reading::Means(tree, spec)),
        Err(fault) => Ok(Reading::Refused(meaning_refused(alloc, fault)?)),
    }
}
