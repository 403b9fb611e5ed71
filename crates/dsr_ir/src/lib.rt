//! The data that a specification, an image's layout and a fact of the model are made of.
#![tactic(auto)]

mod constraints;
mod declarations;
mod expressions;
mod formulas;
mod layouts;
mod memory;
mod names;
mod rules;
mod sequences;
mod tuples;
mod updates;

pub use constraints::{Atom, Bound, Conj, Constraint, Literal, Measure, Quant, Var};
pub use declarations::{
    Field, FieldRef, Kind, Order, Pool, Rel, SetDecl, Spec, Structure, Structures, Width,
};
pub use expressions::{Expr, ExprNode};
pub use formulas::{Formula, FormulaNode};
pub use layouts::{Cell, FieldPlace, Layout, PoolNumbers};
pub use memory::{NoMemory, TryClone};
pub use names::Name;
pub use rules::{Guard, Inc, Op, Path, Rule, Span, Test};
pub use sequences::Seq;
pub use tuples::{Binding, Element, Fact, Instance, Target};
pub use updates::{At, Goal, Pick, Place, Symbol, Template, Update, Write};
