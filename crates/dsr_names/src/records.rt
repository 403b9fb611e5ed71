// The record of a rule, and its fields.
ghost use Rattle.std.specs.Prelude.{◌≡◌, option_map};
ghost use Rattle.dsr_names.specs.Tables.{known_of};
ghost use Rattle.dsr_language_theory.specs.Rules as rules;
ghost use Rattle.dsr_language_theory.specs.Rules.{record_name, record_structure};

use crate::known::Known;
use crate::numbers::is_this;
use dsr_ir::{FieldRef, Name};
use dsr_tree::{Path, Premise, Rule, Var};

// The name of a rule's record; none where it is the head.
fn record_name(premise: &Premise) -> Option<&Name>
    ensures { option_map (λ n. n.now) result ≡ record_name premise.now }
{
    match premise {
        Premise::Head { .. } => None,
        Premise::Member { name, .. } => Some(&name.name),
    }
}

// The structure by which it is read, where its set is known.
fn record_structure(known: &Known<'_>, premise: &Premise) -> Option<u32>
    ensures { result ≡ record_structure (known_of known.now) premise.now }
{
    match premise {
        Premise::Head { .. } => Some(known.base.head),
        Premise::Member { set, .. } => match known.plain_named(&set.name) {
            Some(set) => Some(set.structure),
            None => None,
        },
    }
}

// Whether a variable is the rule's record.
fn is_record(known: &Known<'_>, rule: &Rule, var: &Var) -> bool
    ensures { result ≡ rules.is_record (rules.scope_of (known_of known.now) rule.now) var.now }
{
    match var {
        Var::Head { .. } => record_name(&rule.premise).is_none(),
        Var::Name(name) => is_this(record_name(&rule.premise), &name.name),
    }
}

/// The field that a path of a rule reads, where that is known.
pub fn path_field(known: &Known<'_>, rule: &Rule, path: &Path) -> Option<FieldRef>
    ensures { result ≡ rules.path_field
        (rules.scope_of (known_of known.now) rule.now) path.now.var path.now.field }
{
    if is_record(known, rule, &path.var) {
        known.array_field(record_structure(known, &rule.premise), &path.field.name)
    } else {
        None
    }
}
