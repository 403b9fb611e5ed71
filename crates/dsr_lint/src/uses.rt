// Where sets, relations and fields are used.
ghost use Rattle.std.specs.Prelude.{◌≡◌};
ghost use Rattle.dsr_lint.specs.Uses as uses;

use dsr_ir::{
    Atom, Bound, Constraint, FieldRef, Literal, Measure, Path, Quant, Rule, Span, Spec, Symbol,
    Test,
};

/// Whether some rule gives facts of a symbol.
pub fn is_given(spec: &Spec, symbol: Symbol) -> bool
    ensures { result ≡ uses.is_given spec.now.rules symbol }
{
    for rule in spec.rules.items() {
        if rule.inc.gives(symbol) {
            return true;
        }
    }
    false
}

// Whether a set is the premise of a rule.
fn is_set(set: u32, premise: Option<u32>) -> bool
    ensures { result ≡ uses.is_set set premise }
{
    match premise {
        Some(premise) => premise == set,
        None => false,
    }
}

/// Whether a set is the premise of a rule.
pub fn is_premise(spec: &Spec, set: u32) -> bool
    ensures { result ≡ uses.is_premise spec.now.rules set }
{
    for rule in spec.rules.items() {
        if is_set(set, rule.premise) {
            return true;
        }
    }
    false
}

fn measures(measure: &Measure, symbol: Symbol) -> bool {
    match *measure {
        Measure::Whole(set) => symbol == Symbol::Set(set),
        Measure::Out(_, rel) | Measure::Into(rel, _) => symbol == Symbol::Rel(rel),
    }
}

fn bounds(bound: &Bound, symbol: Symbol) -> bool {
    match bound {
        Bound::Num(_) => false,
        Bound::Size(measure) => measures(measure, symbol),
    }
}

// Whether an atom asks for a symbol.
fn asks(literal: &Literal, symbol: Symbol) -> bool {
    match &literal.atom {
        Atom::Member(_, set) => symbol == Symbol::Set(*set),
        Atom::Pair(_, _, rel) => symbol == Symbol::Rel(*rel),
        Atom::Count(measure, _, _) => measures(measure, symbol),
        Atom::Value(_, rel, _, bound) => symbol == Symbol::Rel(*rel) || bounds(bound, symbol),
    }
}

fn quantifies(quant: Quant, symbol: Symbol) -> bool {
    match quant {
        Quant::Once => false,
        Quant::Each(set) => symbol == Symbol::Set(set),
        Quant::Pairs(rel) => symbol == Symbol::Rel(rel),
    }
}

// Whether a constraint speaks of a symbol.
fn speaks(constraint: &Constraint, symbol: Symbol) -> bool {
    if quantifies(constraint.quant, symbol) {
        return true;
    }
    for conj in constraint.conjs.items() {
        for literal in conj.literals.items() {
            if asks(literal, symbol) {
                return true;
            }
        }
    }
    false
}

/// Whether some constraint speaks of a symbol.
pub fn is_constrained(spec: &Spec, symbol: Symbol) -> bool {
    for constraint in spec.constraints.items() {
        if speaks(constraint, symbol) {
            return true;
        }
    }
    false
}

/// Whether some complement is that of a set, or some supply avoids it.
pub fn is_base_or_avoided(spec: &Spec, set: u32) -> bool {
    for other in spec.base.sets.items() {
        if other.except == Some(set) {
            return true;
        }
    }
    for pool in spec.base.pools.items() {
        if let Some(avoided) = &pool.avoid
            && avoided.items().contains(&set)
        {
            return true;
        }
    }
    false
}

fn is_at(path: Option<Path>, field: FieldRef) -> bool {
    match path {
        Some(path) => path.field == field,
        None => false,
    }
}

// Whether a rule reads a field.
fn reads(rule: &Rule, field: FieldRef) -> bool {
    if rule.span == Span::Array(field) || is_at(rule.inc.target(), field) {
        return true;
    }
    for guard in rule.guards.items() {
        if guard.path.field == field {
            return true;
        }
    }
    false
}

/// Whether some rule reads a field.
pub fn is_read(spec: &Spec, field: FieldRef) -> bool {
    for rule in spec.rules.items() {
        if reads(rule, field) {
            return true;
        }
    }
    false
}

/// Whether some rule follows a reference.
pub fn is_followed(spec: &Spec, field: FieldRef) -> bool {
    for rule in spec.rules.items() {
        if is_at(rule.inc.target(), field) {
            return true;
        }
    }
    false
}

/// Whether some rule tests a reference by `illegal`.
pub fn is_guarded(spec: &Spec, field: FieldRef) -> bool {
    for rule in spec.rules.items() {
        for guard in rule.guards.items() {
            if guard.path.field == field && guard.test == Test::Illegal {
                return true;
            }
        }
    }
    false
}
