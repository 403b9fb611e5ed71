// What the variables of a constraint stand for.
ghost use Rattle.std.specs.Prelude.{◌≡◌, Some, option_map};
ghost use Rattle.dsr_names.specs.Tables.{known_of};
ghost use Rattle.dsr_language_theory.specs.TypedConstraints.{scope_of, named_variable, variable, relation_of, set_of};
ghost use Rattle.dsr_constraint.specs.Scoped.{scope_told};

use dsr_ir::{Name, Quant, Var};
use dsr_names::{Known, quant_of};
use dsr_tree::{Binder, Quantifier};

/// What the variables of a constraint stand for.
#[derive(Clone, Copy)]
pub struct Scope<'a> {
    pub known: Known<'a>,
    pub binder: Option<&'a Binder>,
    /// What is bound, where its set or relation is known.
    pub quant: Option<Quant>,
}

// The variables of a quantifier.
fn binder_of(quantifier: &Option<Quantifier>) -> Option<&Binder>
    ensures { option_map (λ b. b.now) result ≡ option_map (λ q. q.binder) quantifier.now }
{
    match quantifier {
        Some(quantifier) => Some(&quantifier.binder),
        None => None,
    }
}

/// The scope of the formula under a quantifier.
pub fn scope_of<'a>(known: &Known<'a>, quantifier: &'a Option<Quantifier>) -> Scope<'a>
    ensures { scope_told result ≡ scope_of (known_of known.now) quantifier.now }
{
    Scope {
        known: *known,
        binder: binder_of(quantifier),
        quant: quant_of(known, quantifier),
    }
}

// The variable of a quantifier that has a name; the first one where both have it.
fn bound_variable(binder: &Binder, name: &Name) -> Option<Var>
    ensures { result ≡ named_variable (Some binder.now) name.now }
{
    match binder {
        Binder::One(only) => (only.name == *name).then_some(Var::First),
        Binder::Pair { first, second, .. } => {
            if first.name == *name {
                Some(Var::First)
            } else if second.name == *name {
                Some(Var::Second)
            } else {
                None
            }
        }
    }
}

impl Scope<'_> {
    /// The variable that has a name.
    pub fn named_variable(&self, name: &Name) -> Option<Var>
        ensures { result ≡ named_variable (scope_told self.now).binder name.now }
    {
        match self.binder {
            Some(binder) => bound_variable(binder, name),
            None => None,
        }
    }

    pub fn variable(&self, var: &dsr_tree::Var) -> Option<Var>
        ensures { result ≡ variable (scope_told self.now) var.now }
    {
        match var {
            dsr_tree::Var::Head { .. } => Some(Var::Head),
            dsr_tree::Var::Name(name) => self.named_variable(&name.name),
        }
    }

    /// The relation of this name; one of the name `head` is none.
    pub fn relation_of(&self, var: &dsr_tree::Var) -> Option<u32>
        ensures { result ≡ relation_of (scope_told self.now).known var.now }
    {
        match var {
            dsr_tree::Var::Head { .. } => None,
            dsr_tree::Var::Name(name) => self.known.relation(&name.name),
        }
    }

    /// The set of this name; one of the name `head` is none.
    pub fn set_of(&self, var: &dsr_tree::Var) -> Option<u32>
        ensures { result ≡ set_of (scope_told self.now).known var.now }
    {
        match var {
            dsr_tree::Var::Head { .. } => None,
            dsr_tree::Var::Name(name) => self.known.set(&name.name),
        }
    }
}
