// A trial.
ghost use Rattle.std.specs.Prelude.{◌≡◌, ◌++◌, IfOk, OnOk, decimal};
ghost use Rattle.dsr_gen.specs.Images.{trial_bytes};
ghost use Rattle.dsr_gen.specs.Texts.{trial_text as text_of_trials};
ghost use Rattle.dsr_meaning.specs.Legal.{IsLegalLayout};
ghost use Rattle.dsr_meaning.specs.Typed.{IsTyped};
ghost use Rattle.dsr_plan_theory.specs.Taken.{IsTaken};
ghost use Rattle.dsr_step_theory.specs.Images.{IsImageOf};
ghost use Rattle.dsr_script.specs.Moves.{shown};
ghost use Rattle.dsr_command_trial.specs.Trials.{IsTrial, trial_answer};
ghost use Rattle.dsr_language_theory.specs.Specifications.{IsSpecificationOf};

use dsr_answers::{layout_refused, push, push_number};
use dsr_command_image::{laid_out, need_told, repair_whole, violations_of};
use dsr_command_plan::{Found, find, refused};
use dsr_compile::{Reading, read};
use dsr_gen::{trial_image, trial_text};
use dsr_image::Whole;
use dsr_ir::{Layout, NoMemory, Spec};
use dsr_plan_theory::Plan;
use dsr_repair_theory::Outcome;
use dsr_script::{Told, Verdict};
use std::alloc::Global;

// Appends a word with a number behind it.
fn push_count(text: &mut Vec<u8>, word: &[u8], number: u64) -> Result<(), NoMemory>
    ensures { OnOk result (text.new.items ≡ text.old.items ++ word.now ++ decimal number) }
{
    push(text, word)?;
    push_number(text, number)
}

// The answer that the image of a number has so many bytes, that so many bindings were violated at
// first, and that so many steps repaired it.
fn trial_told(
    alloc: Global,
    number: u16,
    bytes: u64,
    violated: u64,
    updates: u64,
) -> Result<Told, NoMemory>
    ensures { IfOk result (λ told. shown told ≡ trial_answer number bytes violated updates) }
{
    let mut text = Vec::new(alloc);
    push_count(&mut text, b"trial ", u64::from(number))?;
    push_count(&mut text, b" length ", bytes)?;
    push_count(&mut text, b" violated ", violated)?;
    push_count(&mut text, b" updates ", updates)?;
    push(&mut text, b"\n")?;
    Ok(Told {
        verdict: Verdict::Ok,
        text,
    })
}

// A trial on the image of its number, whose layout this is.
fn try_image(
    alloc: Global,
    plan: &Plan,
    layout: &Layout,
    number: u16,
    image: Vec<u8>,
) -> Result<Told, NoMemory>
    requires meant { IsSpecificationOf text_of_trials plan.now.0 }
    requires taken { IsTaken plan.now.0 plan.now.1 }
    requires image { IsImageOf plan.now.0 layout.now image.items }
    requires legal { IsLegalLayout layout.now }
    requires made { image.items ≡ trial_bytes number }
    ensures { IfOk result (λ told. IsTrial number (shown told)) }
{
    let bytes = image.len() as u64;
    let image = Whole::new(image);
    let violated = violations_of(alloc, plan.spec(), layout, &image)?;
    let run = repair_whole(alloc, plan, layout, image)?;
    match run.outcome {
        Outcome::Consistent => trial_told(alloc, number, bytes, violated.len() as u64, run.count),
        Outcome::Empty(need) => need_told(run.text, plan.spec(), run.count, &need),
    }
}

// A trial by the plan that is taken.
fn try_plan(alloc: Global, plan: &Plan, number: u16) -> Result<Told, NoMemory>
    requires typed { IsTyped plan.now.0 }
    requires meant { IsSpecificationOf text_of_trials plan.now.0 }
    requires taken { IsTaken plan.now.0 plan.now.1 }
    ensures { IfOk result (λ told. IsTrial number (shown told)) }
{
    let spec = plan.spec();
    let image = trial_image(alloc, number)?;
    match laid_out(alloc, spec, &image) {
        Ok(layout) => try_image(alloc, plan, &layout, number, image),
        Err(fault) => layout_refused(alloc, spec, fault),
    }
}

// A trial under the specification that the text of trials means.
fn try_spec(alloc: Global, spec: &Spec, number: u16) -> Result<Told, NoMemory>
    requires typed { IsTyped spec.now }
    requires meant { IsSpecificationOf text_of_trials spec.now }
    ensures { IfOk result (λ told. IsTrial number (shown told)) }
{
    match find(alloc, spec)? {
        Found::Plan(choice) => try_plan(alloc, &Plan::adopt(spec, choice), number),
        Found::Stuck(set) => refused(alloc, spec, &set),
    }
}

/// The answer to a trial of this number.
pub fn trial(alloc: Global, number: u16) -> Result<Told, NoMemory>
    ensures { IfOk result (λ told. IsTrial number (shown told)) }
{
    let text = trial_text(alloc)?;
    match read(alloc, &text)? {
        Reading::Means(_, spec) => try_spec(alloc, &spec, number),
        Reading::Refused(told) => Ok(told),
    }
}
