// The tables of declarations, a line for each entry, with all its numbers.
use crate::lines::Lines;
use dsr_ir::{
    Expr, ExprNode, Field, Kind, Order, Pool, Rel, Seq, SetDecl, Structure, Structures, Width,
};

fn order_word(order: Order) -> &'static str {
    match order {
        Order::Little => "little",
        Order::Big => "big",
    }
}

fn add_width(lines: &mut Lines, width: Width) {
    match width {
        Width::U8 => lines.word(" u8"),
        Width::U16 => lines.word(" u16"),
        Width::U32 => lines.word(" u32"),
        Width::U64 => lines.word(" u64"),
        Width::Bits(count) => lines.part(" bits", u64::from(count)),
    }
}

// An expression with all its parentheses; `#n` is the head's field n.
fn add_node(lines: &mut Lines, node: &ExprNode) {
    let (left, sign, right) = match node {
        ExprNode::Num(value) => return lines.number(*value),
        ExprNode::Fixed(field) => return lines.part("#", u64::from(*field)),
        ExprNode::Sum(left, right) => (left, " + ", right),
        ExprNode::Less(left, right) => (left, " - ", right),
        ExprNode::Times(left, right) => (left, " * ", right),
        ExprNode::Over(left, right) => (left, " / ", right),
    };
    lines.word("(");
    add_node(lines, left);
    lines.word(sign);
    add_node(lines, right);
    lines.word(")");
}

fn add_expr(lines: &mut Lines, word: &str, expr: &Expr) {
    lines.word(word);
    add_node(lines, expr.node());
}

// An expression that may be missing.
fn add_option(lines: &mut Lines, word: &str, expr: &Option<Expr>) {
    match expr {
        Some(expr) => add_expr(lines, word, expr),
        None => {
            lines.word(word);
            lines.word("-");
        }
    }
}

fn add_kind(lines: &mut Lines, kind: Kind) {
    match kind {
        Kind::Number { init } => lines.part(" number ", init),
        Kind::Refers { pool } => lines.part(" refers ", u64::from(pool)),
        Kind::Gap => lines.word(" gap"),
    }
}

fn add_field(lines: &mut Lines, number: usize, field: &Field) {
    lines.part("    field ", number as u64);
    lines.word(" ");
    lines.name(&field.name);
    lines.word(if field.fixed { " fixed" } else { "" });
    add_width(lines, field.width);
    add_option(lines, " length ", &field.len);
    add_kind(lines, field.kind);
    lines.word("\n");
}

fn add_structure(lines: &mut Lines, number: usize, structure: &Structure) {
    lines.part("  structure ", number as u64);
    lines.word(" ");
    lines.name(&structure.name);
    lines.option(" parent ", structure.parent);
    lines.word("\n");
    for (number, field) in structure.fields.items().iter().enumerate() {
        add_field(lines, number, field);
    }
}

fn add_avoided(lines: &mut Lines, avoid: &Option<Seq<u32>>) {
    match avoid {
        Some(sets) => {
            lines.word(" avoid");
            for set in sets.items() {
                lines.part(" ", u64::from(*set));
            }
        }
        None => lines.word(" no supply"),
    }
}

fn add_pool(lines: &mut Lines, number: usize, pool: &Pool) {
    lines.part("  pool ", number as u64);
    lines.word(" ");
    lines.name(&pool.name);
    lines.part(" structure ", u64::from(pool.structure));
    add_expr(lines, " count ", &pool.count);
    add_option(lines, " slot ", &pool.slot);
    add_expr(lines, " at ", &pool.start);
    add_expr(lines, " codes ", &pool.code);
    add_expr(lines, " step ", &pool.step);
    add_expr(lines, " none ", &pool.none);
    add_avoided(lines, &pool.avoid);
    lines.word("\n");
}

fn add_set(lines: &mut Lines, number: usize, set: &SetDecl) {
    lines.part("  set ", number as u64);
    lines.word(" ");
    lines.name(&set.name);
    lines.part(" pool ", u64::from(set.pool));
    lines.part(" structure ", u64::from(set.structure));
    lines.option(" except ", set.except);
    lines.word("\n");
}

fn add_relation(lines: &mut Lines, number: usize, rel: &Rel) {
    lines.part("  relation ", number as u64);
    lines.word(" ");
    lines.name(&rel.name);
    lines.part(" source ", u64::from(rel.source));
    lines.option(" target ", rel.target);
    lines.word("\n");
}

fn add_structures(lines: &mut Lines, base: &Structures) {
    lines.part("  version ", u64::from(base.version));
    lines.word(" order ");
    lines.word(order_word(base.order));
    lines.part(" head ", u64::from(base.head));
    lines.word("\n");
    for (number, structure) in base.structures.items().iter().enumerate() {
        add_structure(lines, number, structure);
    }
}

fn add_pools(lines: &mut Lines, pools: &[Pool]) {
    let mut number = 0usize;
    for pool in pools {
        number = number.saturating_add(1);
        add_pool(lines, number, pool);
    }
}

fn add_symbols(lines: &mut Lines, base: &Structures) {
    for (number, set) in base.sets.items().iter().enumerate() {
        add_set(lines, number, set);
    }
    for (number, rel) in base.rels.items().iter().enumerate() {
        add_relation(lines, number, rel);
    }
}

/// The lines of the tables that declarations have.
pub fn add_declarations(lines: &mut Lines, base: &Structures) {
    add_structures(lines, base);
    add_pools(lines, base.pools.items());
    add_symbols(lines, base);
}
