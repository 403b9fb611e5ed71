// The size of a normal form, counted before it is made: a formula whose form would have 2^60
// conjunctions is refused at once.
ghost use Rattle.std.specs.Prelude.{◌≡◌, map};
ghost use Rattle.dsr_ir.specs.Formulas.{formula_shape, in_row};
ghost use Rattle.dsr_language_theory.specs.NormalForms.{distributed, any_row, every_row};
ghost use Rattle.dsr_normal.specs.Sizes.{size_of, added, multiplied, is_large};

use dsr_ir::FormulaNode;

// The number of conjunctions and the literals of the longest one. More than 16 conjunctions count
// as 17, more than 8 literals as 9.
#[derive(Clone, Copy)]
pub(crate) struct Size {
    pub(crate) conjunctions: u8,
    pub(crate) longest: u8,
}

impl Size {
    // The size of two lists, one behind the other.
    fn plus(self, other: Size) -> Size
        ensures { result ≡ added self other }
    {
        let conjunctions = u16::from(self.conjunctions) + u16::from(other.conjunctions);
        Size {
            conjunctions: conjunctions.min(17) as u8,
            longest: self.longest.max(other.longest),
        }
    }

    // The size of two lists, each conjunction of the one joined with each of the other.
    fn times(self, other: Size) -> Size
        ensures { result ≡ multiplied self other }
    {
        if self.conjunctions == 0 || other.conjunctions == 0 {
            return Size {
                conjunctions: 0,
                longest: 0,
            };
        }
        let conjunctions = u16::from(self.conjunctions) * u16::from(other.conjunctions);
        let longest = u16::from(self.longest) + u16::from(other.longest);
        Size {
            conjunctions: conjunctions.min(17) as u8,
            longest: longest.min(9) as u8,
        }
    }

    // Whether there are more than 16 conjunctions, or one of more than 8 literals.
    pub(crate) fn is_large(self) -> bool
        ensures { result ≡ is_large self }
    {
        self.conjunctions > 16 || self.longest > 8
    }
}

// The size of a formula's normal form.
#[cycle(sizes)]
pub(crate) fn formula_size(negated: bool, given: bool, node: &FormulaNode) -> Size
    ensures { result ≡ size_of (distributed negated given (formula_shape node.now)) }
{
    match node {
        FormulaNode::Any(parts) => {
            if negated {
                every_size(negated, given, parts)
            } else {
                any_size(negated, given, parts)
            }
        }
        FormulaNode::Every(parts) => {
            if negated {
                any_size(negated, given, parts)
            } else {
                every_size(negated, given, parts)
            }
        }
        FormulaNode::Not(part) => formula_size(!negated, given, part),
        FormulaNode::Given(part) => formula_size(negated, true, part),
        FormulaNode::Leaf(_) => Size {
            conjunctions: 1,
            longest: 1,
        },
    }
}

// The size where one of the parts is to hold.
#[cycle(sizes)]
fn any_size(negated: bool, given: bool, parts: &[FormulaNode]) -> Size
    ensures { result ≡ size_of (any_row negated given (in_row (map formula_shape parts.now))) }
{
    let mut size = Size {
        conjunctions: 0,
        longest: 0,
    };
    for part in parts {
        size = size.plus(formula_size(negated, given, part));
    }
    size
}

// The size where every part is to hold.
#[cycle(sizes)]
pub(crate) fn every_size(negated: bool, given: bool, parts: &[FormulaNode]) -> Size
    ensures { result ≡ size_of (every_row negated given (in_row (map formula_shape parts.now))) }
{
    let mut size = Size {
        conjunctions: 1,
        longest: 0,
    };
    for part in parts {
        size = size.times(formula_size(negated, given, part));
    }
    size
}
