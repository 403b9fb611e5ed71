// Specifications of declarations, with rules and constraints by their names.
ghost use Rattle.std.specs.Prelude.{IfOk};
ghost use Rattle.dsr_meaning.specs.Placeable.{ArePlaceable, IsPlaceable};

use crate::layouts::constraints::constraint_of;
use crate::layouts::rules::rule_of;
use anyhow::{Result, bail};
use dsr_ir::{Constraint, Rule, Seq, Spec, Structures};
use dsr_parse::parse;
use dsr_struct::structures;
use dsr_tree::Tree;
use std::alloc::{AllocError, Global};

// What stands behind a name in the lines of a kind.
fn named<'a>(body: &'a str, kind: &str, name: &str) -> Result<&'a str> {
    for line in body.split('\n') {
        if let Some((found, words)) = line.strip_prefix(kind).unwrap_or("").split_once(": ") {
            if found == name {
                return Ok(words);
            }
        }
    }
    bail!("nothing begins with {kind}{name}");
}

fn rules_of(alloc: Global, body: &str, names: &str) -> Result<Vec<Rule>> {
    let mut rules = Vec::new(alloc);
    for name in names.split_whitespace() {
        let rule = rule_of(alloc, named(body, "@ rule ", name)?)?;
        rules.push(rule).map_err(AllocError::from)?;
    }
    Ok(rules)
}

fn constraints_of(alloc: Global, body: &str, names: &str) -> Result<Vec<Constraint>> {
    let mut constraints = Vec::new(alloc);
    for name in names.split_whitespace() {
        let constraint = constraint_of(alloc, named(body, "@ constraint ", name)?)?;
        constraints.push(constraint).map_err(AllocError::from)?;
    }
    Ok(constraints)
}

fn tree_of(alloc: Global, text: &str) -> Result<Tree> {
    match parse(alloc, text.as_bytes()) {
        Ok(tree) => Ok(tree),
        Err(_) => bail!("no text of the grammar: {text}"),
    }
}

fn declared(alloc: Global, text: &str) -> Result<Structures>
    ensures placeable { IfOk result ArePlaceable }
{
    let tree = tree_of(alloc, text)?;
    let base = structures(alloc, &tree);
    match base {
        Ok(base) => Ok(base),
        Err(_) => bail!("declarations with a fault: {text}"),
    }
}

/// The specification of declarations with the rules and the constraints of these names, for which
/// lines of the body stand; a colon stands between both.
pub fn spec_of(alloc: Global, text: &str, body: &str, names: &str) -> Result<Spec>
    ensures placeable { IfOk result IsPlaceable }
{
    let (rules, constraints) = names.split_once(':').unwrap_or((names, ""));
    let rules = rules_of(alloc, body, rules)?;
    let constraints = constraints_of(alloc, body, constraints)?;
    if rules.len() > 128 || constraints.len() > 128 {
        bail!("more than 128 rules or constraints");
    }
    let base = declared(alloc, text)?;
    Ok(Spec {
        base,
        rules: Seq::new(rules),
        constraints: Seq::new(constraints),
    })
}
