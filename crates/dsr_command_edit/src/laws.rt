// What comes of edits: a law.
ghost use Rattle.std.specs.Prelude.{◌≡◌, ℕ, List};
ghost use Rattle.dsr_command_edit.specs.Edited.{IsEditOf};
ghost use Rattle.dsr_command_image.specs.Repaired.{Ending};
ghost use Rattle.dsr_ir.specs.declared.declarations.Spec.{Spec as SpecOf};

/// What comes of the edits of an image by a script is one thing: the first reason why not all
/// groups can be made, or what all of them leave.
pub fn edits_end_in_one_way()
    ensures { (spec : SpecOf) (image script : List ℕ) (one other : Ending)
        → IsEditOf spec image script one → IsEditOf spec image script other → one ≡ other }
{}
