// What specifications, formulas and updates are made of, and copies of what is copied.
ghost use Rattle.std.specs.Prelude.{◌≡◌, ◌++◌, ◌∷◌, [], IfOk};

use dsr_ir::{
    At, Atom, Expr, ExprNode, FieldRef, Formula, FormulaNode, Goal, Name, NoMemory, Path, Pick,
    Place, Seq, Template, Test, TryClone, Update, Var, Write,
};
use std::alloc::Global;
use std::cmp::Ordering;
use std::hash::{DefaultHasher, Hash, Hasher};

const ATOM: Atom = Atom::Pair(Var::Head, Var::Second, 2);

const WRITE: Write = Write {
    path: Path {
        field: FieldRef {
            structure: 0,
            field: 0,
        },
        indexed: false,
    },
    pick: Pick::Fresh,
    wants: Some((Test::Legal, true)),
};

pub fn name(alloc: Global, text: &[u8]) -> Result<Name, NoMemory> {
    Ok(Name::new(Vec::from_slice(alloc, text)?))
}

pub fn one<T: Drop>(alloc: Global, item: T) -> Result<Seq<T>, NoMemory>
    ensures { IfOk result (λ items. items ≡ item ∷ []) }
{
    Ok(Seq::new(with(Vec::new(alloc), item)?))
}

// A list with one item more.
fn with<T: Drop>(items: Vec<T>, item: T) -> Result<Vec<T>, NoMemory>
    ensures { IfOk result (λ new. new.items ≡ items.items ++ item ∷ []) }
{
    let mut items = items;
    items.push(item)?;
    Ok(items)
}

fn hash_of(name: &Name) -> u64 {
    let mut hasher = DefaultHasher::new();
    name.hash(&mut hasher);
    hasher.finish()
}

fn is_same_name(copy: &Name, name: &Name) -> bool {
    copy == name
        && copy.cmp(name) == Ordering::Equal
        && copy.partial_cmp(name) == Some(Ordering::Equal)
        && hash_of(copy) == hash_of(name)
}

fn name_is_copied(alloc: Global) -> Result<bool, NoMemory> {
    let name = name(alloc, b"nodes")?;
    let copy = TryClone::clone(&name, alloc)?;
    Ok(is_same_name(&copy, &name))
}

// ((4 + 3) - 2) * (9 / 5)
fn expression(alloc: Global) -> Result<Expr, NoMemory> {
    let sum = Expr::sum(alloc, Expr::number(4), Expr::number(3))?;
    let less = Expr::less(alloc, sum, Expr::number(2))?;
    let over = Expr::over(alloc, Expr::number(9), Expr::number(5))?;
    Expr::times(alloc, less, over)
}

fn is_product(expr: &Expr) -> bool {
    *expr != Expr::number(5) && matches!(expr.node(), ExprNode::Times(_, _))
}

fn expressions_are_equal(alloc: Global) -> Result<bool, NoMemory> {
    let expr = expression(alloc)?;
    let again = expression(alloc)?;
    Ok(again == expr && is_product(&expr))
}

fn template(alloc: Global) -> Result<Template, NoMemory> {
    let update = Update {
        rule: 2,
        place: Place::Of(Var::First),
        at: At::Scalar,
        writes: one(alloc, WRITE)?,
        fresh: Some(1),
    };
    Ok(Template {
        goal: Goal::Supply,
        updates: one(alloc, update)?,
    })
}

fn template_is_copied(alloc: Global) -> Result<bool, NoMemory> {
    let template = template(alloc)?;
    let copy = TryClone::clone(&template, alloc)?;
    Ok(copy == template)
}

// given (any of one atom)
fn given(alloc: Global) -> Result<FormulaNode, NoMemory> {
    let any = FormulaNode::Any(with(Vec::new(alloc), FormulaNode::Leaf(ATOM))?);
    Ok(FormulaNode::Given(Box::new(alloc, any)?))
}

// not given (any of one atom), together with that atom
fn formula(alloc: Global) -> Result<Formula, NoMemory> {
    let not = FormulaNode::Not(Box::new(alloc, given(alloc)?)?);
    let every = with(with(Vec::new(alloc), not)?, FormulaNode::Leaf(ATOM))?;
    Ok(Formula::new(FormulaNode::Every(every)))
}

// `not given (any of one atom)`
fn is_first_part(part: &FormulaNode) -> bool {
    match part {
        FormulaNode::Not(part) => {
            let part: &FormulaNode = part;
            matches!(part, FormulaNode::Given(_))
        }
        _ => false,
    }
}

fn is_formula(formula: &Formula) -> bool {
    match formula.node() {
        FormulaNode::Every(parts) => parts.len() == 2 && is_first_part(&parts[0]),
        _ => false,
    }
}

fn formula_is_told(alloc: Global) -> Result<bool, NoMemory> {
    Ok(is_formula(&formula(alloc)?))
}

pub fn are_equal(alloc: Global) -> bool {
    name_is_copied(alloc).unwrap_or(false)
        && expressions_are_equal(alloc).unwrap_or(false)
        && template_is_copied(alloc).unwrap_or(false)
        && formula_is_told(alloc).unwrap_or(false)
}
