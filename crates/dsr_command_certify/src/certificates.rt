// Certificates of plans are valid, and each choice that a certificate may say is read back: laws.
ghost use Rattle.std.specs.Prelude.{ℕ, List};
ghost use Rattle.dsr_cert.specs.Certificates.{certificate_text};
ghost use Rattle.dsr_cert.specs.Forms.{HasNoWrongLine};
ghost use Rattle.dsr_command_certify.specs.Verified.{IsCertificate, IsReadOnce};
ghost use Rattle.dsr_ir.specs.declared.declarations.Spec.{Spec};
ghost use Rattle.dsr_plan_theory.specs.Plans.{IsPlan};
ghost use Rattle.dsr_plan_theory.specs.Taken.{IsTaken};
ghost use Rattle.dsr_plan_theory.specs.declared.choices.Choice.{Choice};
ghost use Rattle.dsr_language_theory.specs.Specifications.{IsSpecificationOf};
ghost use Rattle.dsr_command_certify.specs.LowLevels.{HasLowLevels};
ghost use Rattle.dsr_command_certify.specs.Said.{MayBeSaid};

/// The text of a plan is a certificate, where a certificate may say its levels: no line is wrong,
/// and its lines are those of a plan. So is the text of the plan that is taken, whose levels are
/// low. Any plan may say any level; of the one that is taken no level is empty below one that
/// isn't, so each is below the number of constraints.
pub fn certificates_of_plans_are_valid()
    ensures plans { (text : List ℕ) (spec : Spec) (choice : Choice)
        → IsSpecificationOf text spec → IsPlan spec choice
        → HasLowLevels spec choice → IsCertificate spec (certificate_text spec choice) }
    ensures taken { (text : List ℕ) (spec : Spec) (choice : Choice)
        → IsSpecificationOf text spec → IsTaken spec choice
        → IsCertificate spec (certificate_text spec choice) }
{}

/// The text of a choice that a certificate may say, be it a plan or not, has no wrong line, and its
/// lines are those of this choice alone: so what is read of what is written is that choice.
pub fn choices_are_read_back()
    ensures right { (text : List ℕ) (spec : Spec) (choice : Choice)
        → IsSpecificationOf text spec → MayBeSaid spec choice
        → HasNoWrongLine spec (certificate_text spec choice) }
    ensures read { (text : List ℕ) (spec : Spec) (choice : Choice)
        → IsSpecificationOf text spec → MayBeSaid spec choice
        → IsReadOnce spec (certificate_text spec choice) choice }
{}
