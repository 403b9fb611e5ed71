// The updates by which all that gives a symbol's facts gives none of them.
ghost use Rattle.std.specs.Prelude.{◌≡◌, ◌≤◌, ◌^◌, [], IfOk, MatchBool, length, map};
ghost use Rattle.dsr_goal.specs.Removing as removing;
ghost use Rattle.dsr_meaning.specs.Typed.{AreTyped};
ghost use Rattle.dsr_meaning.specs.Counting.{IsIn};
ghost use Rattle.dsr_update_theory.specs.Givers as rules;
ghost use Rattle.dsr_update_theory.specs.Templates as updating;
ghost use Rattle.dsr_update_theory.specs.Templates.{AreOnce, AreRemovals, AreTrims};

use crate::options::options;
use crate::places::{removal_at, removal_place};
use dsr_ir::{
    At, Goal, Measure, NoMemory, Place, Rule, Seq, Spec, Structures, Symbol, Template, Update, Var,
    Write,
};
use std::alloc::Global;

// The removal by one rule: where it writes, and what, in each of its ways.
#[derive(Drop)]
struct Removal {
    rule: u32,
    place: Place,
    at: At,
    options: Seq<Write>,
}

/// The rules that give facts of the symbol, with their numbers.
pub fn givers(alloc: Global, spec: &Spec, symbol: Symbol) -> Result<Vec<(u32, &Rule)>, NoMemory>
    requires few { length spec.now.rules ≤ 2 ^ 32 }
    ensures { IfOk result (λ found. map (λ r. (r.0, r.1.now)) found.items
        ≡ rules.givers spec.now symbol) }
{
    let mut found = Vec::new(alloc);
    for (number, rule) in spec.rules.items().iter().enumerate() {
        if rule.inc.gives(symbol) {
            found.push((number as u32, rule))?;
        }
    }
    Ok(found)
}

impl Removal {
    fn new(
        alloc: Global,
        base: &Structures,
        var: Option<Var>,
        number: u32,
        rule: &Rule,
    ) -> Result<Removal, NoMemory>
        requires typed { AreTyped base.now }
        ensures { IfOk result (λ r. r ≡ removing.removal_by base.now var number rule.now) }
    {
        Ok(Removal {
            rule: number,
            place: removal_place(var, rule),
            at: removal_at(var, rule),
            options: Seq::new(options(alloc, base, rule)?),
        })
    }

    // The update by the option with this number, or by the last one; none where there is no option.
    fn update(&self, alloc: Global, number: usize) -> Result<Option<Update>, NoMemory>
        ensures { IfOk result (λ u. u ≡ removing.update_at number self.now) }
    {
        let options = self.options.items();
        let last = options.len().saturating_sub(1);
        let Some(write) = options.get(number.min(last)) else {
            return Ok(None);
        };
        Ok(Some(Update {
            rule: self.rule,
            place: self.place,
            at: self.at,
            writes: Seq::new(vec![in alloc; *write]?),
            fresh: None,
        }))
    }
}

fn removals_by(
    alloc: Global,
    base: &Structures,
    var: Option<Var>,
    rules: &[(u32, &Rule)],
) -> Result<Vec<Removal>, NoMemory>
    requires typed { AreTyped base.now }
    ensures { IfOk result (λ removals. removals.items
        ≡ map (λ r. removing.removal_by base.now var r.0 r.1.now) rules.now) }
{
    let mut removals = Vec::new(alloc);
    for &(number, rule) in rules {
        removals.push(Removal::new(alloc, base, var, number, rule)?)?;
    }
    Ok(removals)
}

fn lacks_option(removals: &[Removal]) -> bool
    ensures { result ≡ removing.lacks_option removals.now }
{
    removals
        .iter()
        .any(|removal| removal.options.items().is_empty())
}

fn most_options(removals: &[Removal]) -> usize
    ensures { result ≡ removing.most_options removals.now }
{
    removals
        .iter()
        .fold(0, |most, removal| most.max(removal.options.items().len()))
}

fn template(
    alloc: Global,
    goal: Goal,
    removals: &[Removal],
    number: usize,
) -> Result<Template, NoMemory>
    ensures { IfOk result (λ t. t ≡ removing.template_at goal removals.now number) }
{
    let mut updates = Vec::new(alloc);
    for removal in removals {
        if let Some(update) = removal.update(alloc, number)? {
            updates.push(update)?;
        }
    }
    Ok(Template {
        goal,
        updates: Seq::new(updates),
    })
}

// No equal template is among these.
fn is_new(templates: &[Template], template: &Template) -> bool
    ensures { MatchBool result (IsIn template.now templates.now → ⊥)
        (IsIn template.now templates.now) }
{
    !templates.contains(template)
}

// One template for each number of options, equal ones once.
fn templates(alloc: Global, goal: Goal, removals: &[Removal]) -> Result<Vec<Template>, NoMemory>
    ensures { IfOk result (λ ts. AreOnce [] (removing.templates_of goal removals.now) ts.items) }
{
    let mut templates = Vec::new(alloc);
    if lacks_option(removals) {
        return Ok(templates);
    }
    for number in 0..most_options(removals) {
        let next = template(alloc, goal, removals, number)?;
        if is_new(&templates, &next) {
            templates.push(next)?;
        }
    }
    Ok(templates)
}

/// The removals of a symbol's facts: with each template, none of its rules gives any.
pub fn removals(
    alloc: Global,
    spec: &Spec,
    symbol: Symbol,
    goal: Goal,
    var: Option<Var>,
) -> Result<Vec<Template>, NoMemory>
    requires few { length spec.now.rules ≤ 2 ^ 32 }
    requires typed { AreTyped spec.now.base }
    ensures { IfOk result (λ ts. AreRemovals spec.now symbol goal var ts.items) }
{
    let rules = givers(alloc, spec, symbol)?;
    let removals = removals_by(alloc, &spec.base, var, &rules)?;
    templates(alloc, goal, &removals)
}

/// The set or relation whose facts a size counts.
pub fn counted_symbol(measure: &Measure) -> Symbol
    ensures { result ≡ updating.counted_symbol measure.now }
{
    match *measure {
        Measure::Whole(set) => Symbol::Set(set),
        Measure::Out(_, rel) | Measure::Into(rel, _) => Symbol::Rel(rel),
    }
}

// The variable whose targets are counted, if any.
fn counted_of(measure: &Measure) -> Option<Var>
    ensures { result ≡ updating.counted_of measure.now }
{
    match *measure {
        Measure::Out(var, _) => Some(var),
        Measure::Whole(_) | Measure::Into(_, _) => None,
    }
}

/// The removals of what is counted.
pub fn trims(alloc: Global, spec: &Spec, measure: &Measure) -> Result<Vec<Template>, NoMemory>
    requires few { length spec.now.rules ≤ 2 ^ 32 }
    requires typed { AreTyped spec.now.base }
    ensures { IfOk result (λ ts. AreTrims spec.now measure.now ts.items) }
{
    removals(
        alloc,
        spec,
        counted_symbol(measure),
        Goal::Trim,
        counted_of(measure),
    )
}
