// Rules and constraints, a line for each part.
use dsr_ir::{
    Atom, Bound, Conj, Constraint, FieldRef, Guard, Inc, Literal, Measure, Op, Path, Quant, Rule,
    Span, Test, Var,
};
use dsr_test_text::Lines;

fn op_word(op: Op) -> &'static str {
    match op {
        Op::Eq => " = ",
        Op::Ne => " != ",
        Op::Lt => " < ",
        Op::Le => " <= ",
        Op::Gt => " > ",
        Op::Ge => " >= ",
    }
}

fn var_word(var: Var) -> &'static str {
    match var {
        Var::Head => "head",
        Var::First => "first",
        Var::Second => "second",
    }
}

fn add_place(lines: &mut Lines, field: FieldRef) {
    lines.number(u64::from(field.structure));
    lines.part(".", u64::from(field.field));
}

// The numbers of a path's structure and field, with `[k]` where it has an index.
fn add_path(lines: &mut Lines, path: Path) {
    lines.word(" ");
    add_place(lines, path.field);
    lines.word(if path.indexed { "[k]" } else { "" });
}

fn add_span(lines: &mut Lines, span: Span) {
    match span {
        Span::Single => lines.word(" single"),
        Span::Array(place) => {
            lines.word(" array ");
            add_place(lines, place);
        }
        Span::Slots(pool) => lines.part(" slots ", u64::from(pool)),
    }
}

fn add_test(lines: &mut Lines, test: Test) {
    match test {
        Test::Cmp(op, value) => lines.part(op_word(op), value),
        Test::Legal => lines.word(" legal"),
        Test::Illegal => lines.word(" illegal"),
        Test::IsNone => lines.word(" none"),
        Test::IsSome => lines.word(" some"),
    }
}

// What a rule gives: the number of the set or the relation, then the pool, then the path.
fn add_inclusion(lines: &mut Lines, inc: Inc) {
    match inc {
        Inc::Own(set) => lines.part("own ", u64::from(set)),
        Inc::Target(set, path) => {
            lines.part("target ", u64::from(set));
            add_path(lines, path);
        }
        Inc::Slot(set, pool) => {
            lines.part("slot ", u64::from(set));
            lines.part(" pool ", u64::from(pool));
        }
        Inc::OwnPair(rel, path) => {
            lines.part("own-pair ", u64::from(rel));
            add_path(lines, path);
        }
        Inc::SlotPair(rel, pool, path) => {
            lines.part("slot-pair ", u64::from(rel));
            lines.part(" pool ", u64::from(pool));
            add_path(lines, path);
        }
    }
}

fn add_guard(lines: &mut Lines, number: usize, guard: &Guard) {
    lines.part("    guard ", number as u64);
    add_path(lines, guard.path);
    add_test(lines, guard.test);
    lines.word("\n");
}

fn add_rule(lines: &mut Lines, number: usize, rule: &Rule) {
    lines.part("  rule ", number as u64);
    lines.option(" premise ", rule.premise);
    add_span(lines, rule.span);
    lines.word("\n");
    for (number, guard) in rule.guards.items().iter().enumerate() {
        add_guard(lines, number, guard);
    }
    lines.word("    gives ");
    add_inclusion(lines, rule.inc);
    lines.word("\n");
}

/// The lines of rules.
pub fn rule_lines(lines: &mut Lines, rules: &[Rule]) {
    for (number, rule) in rules.iter().enumerate() {
        add_rule(lines, number, rule);
    }
}

fn add_quantifier(lines: &mut Lines, quant: Quant) {
    match quant {
        Quant::Once => lines.word(" once"),
        Quant::Each(set) => lines.part(" each ", u64::from(set)),
        Quant::Pairs(rel) => lines.part(" pairs ", u64::from(rel)),
    }
}

fn add_measure(lines: &mut Lines, measure: Measure) {
    match measure {
        Measure::Whole(set) => lines.part("whole ", u64::from(set)),
        Measure::Out(var, rel) => {
            lines.word("out ");
            lines.word(var_word(var));
            lines.part(" ", u64::from(rel));
        }
        Measure::Into(rel, var) => {
            lines.part("into ", u64::from(rel));
            lines.word(" ");
            lines.word(var_word(var));
        }
    }
}

fn add_bound(lines: &mut Lines, bound: Bound) {
    match bound {
        Bound::Num(value) => lines.number(value),
        Bound::Size(measure) => add_measure(lines, measure),
    }
}

fn add_atom(lines: &mut Lines, atom: Atom) {
    match atom {
        Atom::Member(var, set) => {
            lines.word("member ");
            lines.word(var_word(var));
            lines.part(" ", u64::from(set));
        }
        Atom::Pair(first, second, rel) => {
            lines.word("pair ");
            lines.word(var_word(first));
            lines.word(" ");
            lines.word(var_word(second));
            lines.part(" ", u64::from(rel));
        }
        Atom::Count(measure, op, value) => {
            lines.word("count ");
            add_measure(lines, measure);
            lines.part(op_word(op), value);
        }
        Atom::Value(var, rel, op, bound) => {
            lines.word("value ");
            lines.word(var_word(var));
            lines.part(" ", u64::from(rel));
            lines.word(op_word(op));
            add_bound(lines, bound);
        }
    }
}

// An atom, behind `given` and `not` where it is only tested and where it is turned round.
fn add_literal(lines: &mut Lines, number: usize, literal: Literal) {
    lines.part("      literal ", number as u64);
    lines.word(if literal.given { " given" } else { "" });
    lines.word(if literal.negated { " not " } else { " " });
    add_atom(lines, literal.atom);
    lines.word("\n");
}

fn add_conjunction(lines: &mut Lines, number: usize, conj: &Conj) {
    lines.part("    conjunction ", number as u64);
    lines.word("\n");
    for (number, literal) in conj.literals.items().iter().enumerate() {
        add_literal(lines, number, *literal);
    }
}

fn add_constraint(lines: &mut Lines, number: usize, constraint: &Constraint) {
    lines.part("  constraint ", number as u64);
    lines.word(" ");
    lines.name(&constraint.name);
    add_quantifier(lines, constraint.quant);
    lines.word("\n");
    for (number, conj) in constraint.conjs.items().iter().enumerate() {
        add_conjunction(lines, number, conj);
    }
}

/// The lines of constraints.
pub fn constraint_lines(lines: &mut Lines, constraints: &[Constraint]) {
    for (number, constraint) in constraints.iter().enumerate() {
        add_constraint(lines, number, constraint);
    }
}
