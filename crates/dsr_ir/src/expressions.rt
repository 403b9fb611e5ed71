// Expressions of a layout.
ghost use Rattle.std.specs.Prelude.{◌≡◌, IfOk};
ghost use Rattle.dsr_ir.specs.Exprs.{NumOf, FixedOf, SumOf, LessOf, TimesOf, OverOf, expr_shape, is_same};

use crate::NoMemory;
use std::alloc::Global;
use std::marker::Model;

/// What an expression is made of: a number, a fixed field, or an operation on two sides.
#[derive(Drop)]
pub enum ExprNode {
    Num(u64),
    /// The value of the head's field of this number.
    Fixed(u32),
    Sum(Box<ExprNode>, Box<ExprNode>),
    Less(Box<ExprNode>, Box<ExprNode>),
    Times(Box<ExprNode>, Box<ExprNode>),
    Over(Box<ExprNode>, Box<ExprNode>),
}

/// An expression over numbers and fixed fields, computed in whole numbers from 0 to 2^64 - 1.
/// Contracts see what it says, and not where its parts lie in memory.
pub struct Expr {
    node: ExprNode,
}

impl Drop for Expr {
    fn drop(self) {
        let Expr { node: _ } = self;
    }
}

impl Model for Expr {
    ghost use Rattle.dsr_ir.specs.Exprs.{ExprShape, expr_shape, shape_code};

    ghost Value = { ExprShape };

    ghost coded = { shape_code };

    ghost view = { λ e. expr_shape e.node };
}

impl Expr {
    /// A number.
    pub fn number(value: u64) -> Expr
        ensures { result ≡ NumOf value }
    {
        Expr {
            node: ExprNode::Num(value),
        }
    }

    /// The value of the head's field of this number.
    pub fn fixed(field: u32) -> Expr
        ensures { result ≡ FixedOf field }
    {
        Expr {
            node: ExprNode::Fixed(field),
        }
    }

    /// The sum of two expressions.
    pub fn sum(alloc: Global, left: Expr, right: Expr) -> Result<Expr, NoMemory>
        ensures { IfOk result (λ e. e ≡ SumOf left right) }
    {
        let Expr { node: left } = left;
        let Expr { node: right } = right;
        let left = Box::new(alloc, left)?;
        let right = Box::new(alloc, right)?;
        Ok(Expr {
            node: ExprNode::Sum(left, right),
        })
    }

    /// The difference of two expressions.
    pub fn less(alloc: Global, left: Expr, right: Expr) -> Result<Expr, NoMemory>
        ensures { IfOk result (λ e. e ≡ LessOf left right) }
    {
        let Expr { node: left } = left;
        let Expr { node: right } = right;
        let left = Box::new(alloc, left)?;
        let right = Box::new(alloc, right)?;
        Ok(Expr {
            node: ExprNode::Less(left, right),
        })
    }

    /// The product of two expressions.
    pub fn times(alloc: Global, left: Expr, right: Expr) -> Result<Expr, NoMemory>
        ensures { IfOk result (λ e. e ≡ TimesOf left right) }
    {
        let Expr { node: left } = left;
        let Expr { node: right } = right;
        let left = Box::new(alloc, left)?;
        let right = Box::new(alloc, right)?;
        Ok(Expr {
            node: ExprNode::Times(left, right),
        })
    }

    /// The quotient of two expressions, without its rest.
    pub fn over(alloc: Global, left: Expr, right: Expr) -> Result<Expr, NoMemory>
        ensures { IfOk result (λ e. e ≡ OverOf left right) }
    {
        let Expr { node: left } = left;
        let Expr { node: right } = right;
        let left = Box::new(alloc, left)?;
        let right = Box::new(alloc, right)?;
        Ok(Expr {
            node: ExprNode::Over(left, right),
        })
    }

    /// What the expression is made of.
    pub fn node(&self) -> &ExprNode
        ensures { expr_shape result.now ≡ self.now }
    {
        &self.node
    }
}

impl PartialEq for Expr {
    ghost use Rattle.std.specs.Cmp.{partial_equiv_from_equiv};
    ghost use Rattle.dsr_ir.specs.Exprs.{is_same, is_same_equiv};

    ghost eq = { is_same };

    ghost laws = { partial_equiv_from_equiv is_same_equiv };

    fn eq(&self, other: &Expr) -> bool {
        say_the_same(&self.node, &other.node)
    }
}

impl Eq for Expr {
    ghost use Rattle.dsr_ir.specs.Exprs.{is_same_equiv};

    ghost laws = { is_same_equiv };
}

fn say_the_same(left: &ExprNode, right: &ExprNode) -> bool
    ensures { result ≡ is_same (expr_shape left.now) (expr_shape right.now) }
{
    match (left, right) {
        (ExprNode::Num(m), ExprNode::Num(n)) => *m == *n,
        (ExprNode::Fixed(m), ExprNode::Fixed(n)) => *m == *n,
        (ExprNode::Sum(a, b), ExprNode::Sum(c, d)) => say_the_same(a, c) && say_the_same(b, d),
        (ExprNode::Less(a, b), ExprNode::Less(c, d)) => say_the_same(a, c) && say_the_same(b, d),
        (ExprNode::Times(a, b), ExprNode::Times(c, d)) => say_the_same(a, c) && say_the_same(b, d),
        (ExprNode::Over(a, b), ExprNode::Over(c, d)) => say_the_same(a, c) && say_the_same(b, d),
        _ => false,
    }
}
