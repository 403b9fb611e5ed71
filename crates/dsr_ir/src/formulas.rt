// Formulas over statements about the model.
ghost use Rattle.std.specs.Prelude.{◌≡◌};
ghost use Rattle.dsr_ir.specs.Formulas.{formula_shape};

use crate::Atom;
use std::marker::Model;

/// The parts of a formula. Each part of `Any` and `Every` is a formula of its own, and `Any` of no
/// parts is false.
#[derive(Drop)]
pub enum FormulaNode {
    Any(Vec<FormulaNode>),
    Every(Vec<FormulaNode>),
    Not(Box<FormulaNode>),
    /// A formula whose atoms are tested and never repaired.
    Given(Box<FormulaNode>),
    Leaf(Atom),
}

/// A constraint's body before it is brought to disjunctive normal form. Contracts see what it
/// says, and not where its parts lie in memory.
pub struct Formula {
    node: FormulaNode,
}

impl Drop for Formula {
    fn drop(self) {
        let Formula { node: _ } = self;
    }
}

impl Model for Formula {
    ghost use Rattle.dsr_ir.specs.Formulas.{FormulaShape, formula_shape, formula_code};
    ghost use Rattle.dsr_ir.specs.contracts.constraints.Atom as atom;

    ghost Value = { FormulaShape };

    ghost coded = { formula_code atom.the_row.coded };

    ghost view = { λ f. formula_shape f.node };
}

impl Formula {
    /// The formula that is made of this.
    pub fn new(node: FormulaNode) -> Formula
        ensures { result ≡ formula_shape node }
    {
        Formula { node }
    }

    /// What the formula is made of.
    pub fn node(&self) -> &FormulaNode
        ensures { formula_shape result.now ≡ self.now }
    {
        &self.node
    }
}
