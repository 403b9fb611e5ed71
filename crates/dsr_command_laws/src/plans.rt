// What a run says of plans and certificates: laws.
ghost use Rattle.std.specs.Prelude.{ℕ, List};
ghost use Rattle.dsr_command_theory.specs.Commands.{asked};
ghost use Rattle.dsr_command_laws.specs.PlanHeadlines.{CertifiesNothingElse, CertifiesPlans, FindsNothingElse, FindsPlans, VerifiesCertificates, VerifiesNothingElse};
ghost use Rattle.dsr_script.specs.Outside.{Outside};
ghost use Rattle.dsr_script.specs.Runs.{Runs};
ghost use Rattle.dsr_script.specs.declared.status.Status.{Status};

use dsr_command_certify::certificates_of_plans_are_valid;
use dsr_compile_laws::texts_have_one_meaning;

/// A `plan` that speaks gives the verdict on the specification; none is said to have a plan or to
/// have none unless one was looked for.
pub fn plans_are_found()
    ensures plans { (words : List (List ℕ)) (before after : Outside) (status : Status)
        → Runs (asked words) before after status → FindsPlans words before after status }
    ensures nothing_else { (words : List (List ℕ)) (before after : Outside) (status : Status)
        → Runs (asked words) before after status → FindsNothingElse words before after status }
{
    texts_have_one_meaning();
}

/// A `certify` that speaks has saved the certificate of the plan that is taken, which is valid, or
/// tells that there is none; none is said to be certified or to have no plan unless one was looked
/// for.
pub fn plans_are_certified()
    ensures certificates { (words : List (List ℕ)) (before after : Outside) (status : Status)
        → Runs (asked words) before after status → CertifiesPlans words before after status }
    ensures nothing_else { (words : List (List ℕ)) (before after : Outside) (status : Status)
        → Runs (asked words) before after status → CertifiesNothingElse words before after status }
{
    certificates_of_plans_are_valid();
    texts_have_one_meaning();
}

/// A `verify` that speaks gives the verdict on the certificate; none is said to be one of a plan or
/// none unless it was verified.
pub fn certificates_are_verified()
    ensures verified { (words : List (List ℕ)) (before after : Outside) (status : Status)
        → Runs (asked words) before after status → VerifiesCertificates words before after status }
    ensures nothing_else { (words : List (List ℕ)) (before after : Outside) (status : Status)
        → Runs (asked words) before after status → VerifiesNothingElse words before after status }
{
    texts_have_one_meaning();
}
