// Pools of variables.
ghost use Rattle.std.specs.Prelude.{◌≡◌, Some};
ghost use Rattle.dsr_tree.specs.declared.tree.Var.TheVariants as vars;
ghost use Rattle.dsr_language_theory.specs.Constraints.{var_pool, pool_of};
ghost use Rattle.dsr_constraint.specs.Scoped.{scope_told};

use crate::scopes::Scope;
use dsr_ir::Var;
use dsr_names::{first_pool, second_pool};
use dsr_tree::PlacedName;

impl Scope<'_> {
    // The pool of a bound variable, where that is known; that of the head is 0.
    fn var_pool(&self, var: Var) -> Option<u32>
        ensures { result ≡ var_pool (scope_told self.now) (Some var) }
    {
        match var {
            Var::Head => Some(0),
            Var::First => first_pool(self.known.base, self.quant?),
            Var::Second => second_pool(self.known.base, self.quant?),
        }
    }

    /// The pool of a variable, where that is known.
    pub fn pool_of(&self, var: &dsr_tree::Var) -> Option<u32>
        ensures { result ≡ pool_of (scope_told self.now) var.now }
    {
        match self.variable(var) {
            Some(var) => self.var_pool(var),
            None => None,
        }
    }

    /// The pool of the variable that has a name, where that is known.
    pub fn pool_of_name(&self, name: &PlacedName) -> Option<u32>
        ensures { result ≡ pool_of (scope_told self.now) (vars.Name name.now) }
    {
        match self.named_variable(&name.name) {
            Some(var) => self.var_pool(var),
            None => None,
        }
    }
}
