//! What a specification's text is made of: its tokens, its tree, and the faults that are told of
//! it.
#![tactic(auto)]

mod faults;
mod tokens;
mod tree;

pub use faults::{Condition, Fault};
pub use tokens::{Keyword, Lexeme, Sign, Token};
pub use tree::{
    Atom, Binder, Bound, Compare, Constraint, Content, Expr, Factor, Field, Formula, Fresh, Guard,
    Guards, Inclusion, Index, Join, Measure, Member, MemberPart, MoreFactor, MoreTerm, NamedField,
    Path, PlacedName, PlacedNumber, Pool, Premise, ProductSign, Quantifier, RefTest, Relation,
    Rule, Set, Size, Span, Structure, SumSign, Target, Term, Term2, Tree, Unit, Var, View, Width,
};
