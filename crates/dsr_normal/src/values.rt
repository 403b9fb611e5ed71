// Statements that are no memberships and are negated.
ghost use Rattle.std.specs.Prelude.{◌≡◌, map};
ghost use Rattle.dsr_ir.specs.Formulas.{formula_shape, in_row};
ghost use Rattle.dsr_language_theory.specs.NormalForms.{is_membership, negates, row_negates};

use dsr_ir::{Atom, FormulaNode};

// Whether the atom is a membership of one record, or of a pair.
fn is_a_membership(atom: Atom) -> bool
    ensures { result ≡ is_membership atom }
{
    match atom {
        Atom::Member(_, _) | Atom::Pair(_, _, _) => true,
        Atom::Count(_, _, _) | Atom::Value(_, _, _, _) => false,
    }
}

// Whether `not` stands above an atom that is no membership, in the formula or around it.
#[cycle(values)]
pub(crate) fn negates_value(under_not: bool, node: &FormulaNode) -> bool
    ensures { result ≡ negates under_not (formula_shape node.now) }
{
    match node {
        FormulaNode::Any(parts) => any_negates(under_not, parts),
        FormulaNode::Every(parts) => any_negates(under_not, parts),
        FormulaNode::Not(part) => negates_value(true, part),
        FormulaNode::Given(part) => negates_value(under_not, part),
        FormulaNode::Leaf(atom) => under_not && !is_a_membership(*atom),
    }
}

// Whether it does in one of these formulas.
#[cycle(values)]
fn any_negates(under_not: bool, parts: &[FormulaNode]) -> bool
    ensures { result ≡ row_negates under_not (in_row (map formula_shape parts.now)) }
{
    for part in parts {
        if negates_value(under_not, part) {
            return true;
        }
    }
    false
}
