// What holds once a step was made: laws on steps.
ghost use Rattle.std.specs.Prelude.{◌≡◌, ℕ, [], ◌∷◌, List, None, Some, false, length};
ghost use Rattle.dsr_ir.specs.Rules.{target_of};
ghost use Rattle.dsr_ir.specs.declared.constraints.Var.{Var};
ghost use Rattle.dsr_ir.specs.declared.declarations.Field.{Field};
ghost use Rattle.dsr_ir.specs.declared.declarations.FieldRef.{FieldRef};
ghost use Rattle.dsr_ir.specs.declared.declarations.Spec.{Spec};
ghost use Rattle.dsr_ir.specs.declared.layouts.Cell.{Cell};
ghost use Rattle.dsr_ir.specs.declared.layouts.Layout.{Layout};
ghost use Rattle.dsr_ir.specs.declared.rules.Guard.{Guard};
ghost use Rattle.dsr_ir.specs.declared.rules.Inc.TheVariants.{Own, OwnPair, Target};
ghost use Rattle.dsr_ir.specs.declared.rules.Path.{Path};
ghost use Rattle.dsr_ir.specs.declared.rules.Rule.{Rule};
ghost use Rattle.dsr_ir.specs.declared.rules.Test.{Test};
ghost use Rattle.dsr_ir.specs.declared.tuples.Element.{Element};
ghost use Rattle.dsr_ir.specs.declared.tuples.Fact.TheVariants.{Member, Pair};
ghost use Rattle.dsr_ir.specs.declared.tuples.Fact.{Fact};
ghost use Rattle.dsr_ir.specs.declared.tuples.Instance.{Instance};
ghost use Rattle.dsr_ir.specs.declared.tuples.Target.TheVariants.{Elem};
ghost use Rattle.dsr_ir.specs.declared.updates.Pick.TheVariants.{CodeOf, Fresh, NoneCode};
ghost use Rattle.dsr_ir.specs.declared.updates.Pick.{Pick};
ghost use Rattle.dsr_ir.specs.declared.updates.Update.{Update};
ghost use Rattle.dsr_ir.specs.declared.updates.Write.{Write};
ghost use Rattle.dsr_meaning.specs.Cells.{cell_value};
ghost use Rattle.dsr_meaning.specs.Counting.{IsIn};
ghost use Rattle.dsr_meaning.specs.Instances.{Gives, Meets, referred_pool};
ghost use Rattle.dsr_meaning.specs.Legal.{IsLegalLayout};
ghost use Rattle.dsr_meaning.specs.Truth.{element_of};
ghost use Rattle.dsr_meaning.specs.Typed.{IsTyped};
ghost use Rattle.dsr_step_laws.specs.Additions.{IsAddition, written_instance};
ghost use Rattle.dsr_step_theory.specs.Steps.{IsSlot, IsStepped, picked_number, written_cell, written_number};
ghost use Rattle.dsr_step_theory.specs.declared.steps.Step.{Step};
ghost use Rattle.dsr_update_theory.specs.Guards.{guard_write, pick_false};
ghost use Rattle.dsr_update_theory.specs.Options.{reference_write};
ghost use Rattle.dsr_update_theory.specs.Templates.{all_true, target_writes};
ghost use Rattle.dsr_update_theory.specs.Together.{MayStandTogether};

/// After a step of one write that wants no test, as one that sets a value, the written cell has
/// the number that was picked, whether the write was made or skipped.
pub fn values_are_set()
    ensures { (spec : Spec) (layout : Layout) (step : Step) (update : Update) (write : Write)
        (cell : Cell) (number : ℕ) (old new : List ℕ)
        → update.writes ≡ write ∷ [] → write.wants ≡ None
        → written_cell layout step write ≡ Some cell
        → written_number spec layout step write ≡ Some number
        → IsStepped spec layout step update old new → cell_value new cell ≡ number }
{}

/// The number that makes a test false doesn't meet it.
pub fn picked_numbers_fail()
    ensures { (spec : Spec) (layout : Layout) (step : Step) (field : FieldRef) (f : Field)
        (test : Test) (pick : Pick) (number : ℕ) → IsLegalLayout layout
        → pick_false f test ≡ Some pick
        → picked_number spec layout step field pick ≡ Some number
        → Meets layout (referred_pool spec field) test number → ⊥ }
{}

/// After a step that makes a guard false, the instance at its record and index gives nothing.
pub fn guards_made_false_stop_instances()
    ensures { (spec : Spec) (layout : Layout) (step : Step) (update : Update) (write : Write)
        (guard : Guard) (rule : Rule) (i : Instance) (old new : List ℕ) (fact : Fact)
        → IsLegalLayout layout → update.writes ≡ write ∷ []
        → guard_write spec.base false guard ≡ Some write → IsIn guard rule.guards
        → i.elem ≡ step.elem → i.index ≡ step.index
        → IsStepped spec layout step update old new → Gives spec layout new i rule fact → ⊥ }
{}

/// After a step that writes a rule's target none, the instance at its record and index gives
/// nothing.
pub fn targets_made_none_stop_instances()
    ensures { (spec : Spec) (layout : Layout) (step : Step) (update : Update) (write : Write)
        (path : Path) (rule : Rule) (i : Instance) (old new : List ℕ) (fact : Fact)
        → IsLegalLayout layout → update.writes ≡ write ∷ []
        → reference_write spec.base NoneCode path ≡ Some write
        → target_of rule.inc ≡ Some path → i.elem ≡ step.elem → i.index ≡ step.index
        → IsStepped spec layout step update old new → Gives spec layout new i rule fact → ⊥ }
{}

/// After a step that adds, the rule's instance at the written record fires, and gives what was to
/// be added: the record as a member, a pair with the record of a variable, or the fresh record as a
/// member or as the target of a pair.
pub fn additions_fire()
    ensures members { (spec : Spec) (layout : Layout) (step : Step) (update : Update) (rule : Rule)
        (set : ℕ) (old new : List ℕ) → rule.inc ≡ Own set
        → IsAddition spec layout step update rule (all_true spec.base rule.guards) (length old)
        → IsStepped spec layout step update old new
        → Gives spec layout new (written_instance step) rule (Member set step.elem) }
    ensures pairs { (spec : Spec) (layout : Layout) (step : Step) (update : Update) (rule : Rule)
        (rel : ℕ) (path : Path) (w : Var) (e : Element) (old new : List ℕ)
        → rule.inc ≡ OwnPair rel path
        → IsAddition spec layout step update rule
        (target_writes spec.base (CodeOf w) path rule.guards) (length old)
        → element_of step.binding w ≡ Some e → referred_pool spec path.field ≡ Some e.pool
        → IsSlot layout e → IsStepped spec layout step update old new
        → Gives spec layout new (written_instance step) rule (Pair rel step.elem (Elem e)) }
    ensures fresh_members { (spec : Spec) (layout : Layout) (step : Step) (update : Update)
        (rule : Rule) (set : ℕ) (path : Path) (e : Element) (old new : List ℕ)
        → rule.inc ≡ Target set path
        → IsAddition spec layout step update rule (target_writes spec.base Fresh path rule.guards)
        (length old)
        → step.fresh ≡ Some e → referred_pool spec path.field ≡ Some e.pool
        → IsStepped spec layout step update old new
        → Gives spec layout new (written_instance step) rule (Member set e) }
    ensures fresh_targets { (spec : Spec) (layout : Layout) (step : Step) (update : Update)
        (rule : Rule) (rel : ℕ) (path : Path) (e : Element) (old new : List ℕ)
        → rule.inc ≡ OwnPair rel path
        → IsAddition spec layout step update rule (target_writes spec.base Fresh path rule.guards)
        (length old)
        → step.fresh ≡ Some e → referred_pool spec path.field ≡ Some e.pool
        → IsStepped spec layout step update old new
        → Gives spec layout new (written_instance step) rule (Pair rel step.elem (Elem e)) }
{}

/// The writes by which a rule of a typed specification adds may stand in one update.
pub fn writes_of_additions_may_stand_together()
    ensures guards { (spec : Spec) (rule : Rule) (writes : List Write) → IsTyped spec
        → IsIn rule spec.rules → all_true spec.base rule.guards ≡ Some writes
        → MayStandTogether spec.base writes }
    ensures targets { (spec : Spec) (rule : Rule) (pick : Pick) (path : Path) (writes : List Write)
        → IsTyped spec → IsIn rule spec.rules → target_of rule.inc ≡ Some path
        → target_writes spec.base pick path rule.guards ≡ Some writes
        → MayStandTogether spec.base writes }
{}
