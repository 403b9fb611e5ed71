// Commands that wait for a file.
ghost use Rattle.std.specs.Prelude.{◌≡◌, ◌≤◌, ◌+◌, IfOk, Some, length};
ghost use Rattle.dsr_command_theory.specs.Commands as commands;
ghost use Rattle.dsr_command_theory.specs.Commands.{audits, edits, lays_out, loads_certificate, loads_edited, loads_explained, loads_for, loads_image, loads_listed, loads_repaired, loads_undone, opens, plans_audit, plans_repair, reads, repairs, saves_plan, script_of, tells_text, undoes};
ghost use Rattle.dsr_words.specs.Asking.{asked_of};
ghost use Rattle.dsr_cli.specs.Stages.{comes_to, due, is_ready, left, loaded_for};
ghost use Rattle.dsr_meaning.specs.Typed.{IsTyped};
ghost use Rattle.dsr_plan_theory.specs.Taken.{IsTaken};
ghost use Rattle.dsr_compile.specs.Readings.{IsSpecOf};
ghost use Rattle.dsr_script.specs.Moves.{Follows, IsReady, loads_of};
ghost use Rattle.dsr_step_theory.specs.Images.{IsImageOf};
ghost use Rattle.dsr_tree.specs.Trees.{tree_shape};
ghost use Rattle.dsr_meaning.specs.Limits.{most_bytes};

use dsr_answers::told;
use dsr_command_audit::{Laid, Undone, audit, lay_out, undo};
use dsr_command_certify::{Certified, certify, verify};
use dsr_command_edit::{Edited, Opened, Ready, edit, open};
use dsr_command_image::{Repaired, check, repair};
use dsr_command_plan::{Found, find, plan, refused};
use dsr_command_trial::trial;
use dsr_command_why::{lost, why};
use dsr_compile::{Reading, read};
use dsr_ir::{Layout, NoMemory, Spec};
use dsr_parse::print;
use dsr_plan_theory::{Choice, Plan};
use dsr_script::{Commands, Move, Stage, Told, Verdict};
use dsr_tree::Tree;
use dsr_words::{Command, Task, command_of};
use std::alloc::{AllocError, Global};

/// The most bytes of a specification's text.
const SPEC_LIMIT: u32 = 65_536;

/// The most bytes of a certificate.
const CERTIFICATE_LIMIT: u32 = 1_048_576;

/// The most bytes of a report.
const REPORT_LIMIT: u32 = 67_108_864;

/// The most bytes of a script of edits.
const SCRIPT_LIMIT: u32 = 1_048_576;

/// A command that waits for a file.
#[derive(Drop)]
pub enum Waiting<'a> {
    /// For the text of the specification.
    Spec(Task<'a>),
    /// `check`, for the image, with the specification that the text means.
    Image(Spec),
    /// `repair`, for the image, with the specification that the text means and the choice that is its
    /// plan.
    Damaged {
        spec: Spec,
        choice: Choice,
        out: &'a str,
    },
    /// `verify`, for the certificate, with the specification that the text means.
    Certificate(Spec),
    /// `audit`, for the image, with the specification that the text means and the choice that is its
    /// plan.
    Audited {
        spec: Spec,
        choice: Choice,
        report: &'a str,
        fixed: &'a str,
    },
    /// `audit`, for the report, with the image and its layout as well.
    AuditedReport {
        spec: Spec,
        choice: Choice,
        layout: Layout,
        image: Vec<u8>,
        fixed: &'a str,
    },
    /// `audit`, for the bytes that the repair is said to have left, with the report as well.
    AuditedEnd {
        spec: Spec,
        choice: Choice,
        layout: Layout,
        image: Vec<u8>,
        report: Vec<u8>,
    },
    /// `undo`, for the image that was repaired, with the specification that the text means.
    Repaired {
        spec: Spec,
        report: &'a str,
        out: &'a str,
    },
    /// `undo`, for the report, with the image as well.
    UndoneReport {
        spec: Spec,
        fixed: Vec<u8>,
        out: &'a str,
    },
    /// `why`, for the image, with the specification that the text means.
    Explained {
        spec: Spec,
        fact: &'a str,
    },
    /// `lost`, for the image, with the specification that the text means.
    Listed(Spec),
    /// `edit`, for the image, with the specification that the text means.
    Edited {
        spec: Spec,
        script: &'a str,
        out: &'a str,
    },
    /// `edit`, for the script, with the image that may be edited.
    EditScript {
        ready: Ready,
        out: &'a str,
    },
}

// The most bytes of an image.
fn image_limit(spec: &Spec) -> u32
    ensures is { result ≡ commands.image_limit spec.now }
    ensures most { result ≤ most_bytes }
{
    if spec.base.version == 2 {
        67_108_864
    } else {
        4_194_304
    }
}

// `text` goes on with the tree of the text.
fn tell_text<'a>(alloc: Global, tree: &Tree) -> Result<Move<'a, Waiting<'a>>, NoMemory>
    ensures ready { IfOk result (λ move. IsReady is_ready move) }
    ensures follows { IfOk result (λ move. Follows due (tells_text (tree_shape tree.now)) move) }
    ensures fewer { IfOk result (λ move. loads_of left move ≤ 0) }
{
    Ok(Move::Tell(Told {
        verdict: Verdict::Ok,
        text: print(alloc, tree)?,
    }))
}

// `certify` goes on with the specification.
fn save_certificate<'a>(
    alloc: Global,
    spec: &Spec,
    certificate: &'a str,
) -> Result<Move<'a, Waiting<'a>>, NoMemory>
    requires typed { IsTyped spec.now }
    ensures ready { IfOk result (λ move. IsReady is_ready move) }
    ensures follows { IfOk result (λ move. Follows due (saves_plan certificate.now spec.now) move) }
    ensures fewer { IfOk result (λ move. loads_of left move ≤ 0) }
{
    match certify(alloc, spec)? {
        Certified::Certificate(bytes, told) => Ok(Move::Save {
            name: certificate,
            bytes,
            told,
        }),
        Certified::Unplanned(told) => Ok(Move::Tell(told)),
    }
}

// `verify` goes on with the specification.
fn load_certificate<'a>(spec: Spec, certificate: &'a str) -> Move<'a, Waiting<'a>>
    requires typed { IsTyped spec }
    ensures ready { IsReady is_ready result }
    ensures follows { Follows due (loads_certificate certificate.now spec) result }
    ensures fewer { loads_of left result ≤ 1 }
{
    Move::Load {
        name: certificate,
        limit: CERTIFICATE_LIMIT,
        long: b"too long certificate\n",
        stage: Waiting::Certificate(spec),
    }
}

// `check` goes on with the specification.
fn load_image<'a>(spec: Spec, image: &'a str) -> Move<'a, Waiting<'a>>
    requires typed { IsTyped spec }
    ensures ready { IsReady is_ready result }
    ensures follows { Follows due (loads_image image.now spec) result }
    ensures fewer { loads_of left result ≤ 1 }
{
    Move::Load {
        name: image,
        limit: image_limit(&spec),
        long: b"too long image\n",
        stage: Waiting::Image(spec),
    }
}

// `repair` goes on with the specification.
fn load_damaged<'a>(
    alloc: Global,
    spec: Spec,
    image: &'a str,
    out: &'a str,
) -> Result<Move<'a, Waiting<'a>>, NoMemory>
    requires typed { IsTyped spec }
    ensures ready { IfOk result (λ move. IsReady is_ready move) }
    ensures follows { IfOk result (λ move. Follows due (plans_repair image.now out.now spec) move) }
    ensures fewer { IfOk result (λ move. loads_of left move ≤ 1) }
{
    match find(alloc, &spec)? {
        Found::Plan(choice) => Ok(Move::Load {
            name: image,
            limit: image_limit(&spec),
            long: b"too long image\n",
            stage: Waiting::Damaged { spec, choice, out },
        }),
        Found::Stuck(set) => Ok(Move::Tell(refused(alloc, &spec, &set)?)),
    }
}

// `audit` goes on with the specification.
fn load_audited<'a>(
    alloc: Global,
    spec: Spec,
    image: &'a str,
    report: &'a str,
    fixed: &'a str,
) -> Result<Move<'a, Waiting<'a>>, NoMemory>
    requires typed { IsTyped spec }
    ensures ready { IfOk result (λ move. IsReady is_ready move) }
    ensures follows { IfOk result (λ move. Follows due
        (plans_audit image.now report.now fixed.now spec) move) }
    ensures fewer { IfOk result (λ move. loads_of left move ≤ 3) }
{
    match find(alloc, &spec)? {
        Found::Plan(choice) => Ok(Move::Load {
            name: image,
            limit: image_limit(&spec),
            long: b"too long image\n",
            stage: Waiting::Audited {
                spec,
                choice,
                report,
                fixed,
            },
        }),
        Found::Stuck(set) => Ok(Move::Tell(refused(alloc, &spec, &set)?)),
    }
}

// `undo` goes on with the specification.
fn load_repaired<'a>(
    spec: Spec,
    fixed: &'a str,
    report: &'a str,
    out: &'a str,
) -> Move<'a, Waiting<'a>>
    requires typed { IsTyped spec }
    ensures ready { IsReady is_ready result }
    ensures follows { Follows due (loads_repaired fixed.now report.now out.now spec) result }
    ensures fewer { loads_of left result ≤ 2 }
{
    Move::Load {
        name: fixed,
        limit: image_limit(&spec),
        long: b"too long image\n",
        stage: Waiting::Repaired { spec, report, out },
    }
}

// `why` goes on with the specification.
fn load_explained<'a>(spec: Spec, image: &'a str, fact: &'a str) -> Move<'a, Waiting<'a>>
    requires typed { IsTyped spec }
    ensures ready { IsReady is_ready result }
    ensures follows { Follows due (loads_explained image.now fact.now spec) result }
    ensures fewer { loads_of left result ≤ 1 }
{
    Move::Load {
        name: image,
        limit: image_limit(&spec),
        long: b"too long image\n",
        stage: Waiting::Explained { spec, fact },
    }
}

// `lost` goes on with the specification.
fn load_listed<'a>(spec: Spec, image: &'a str) -> Move<'a, Waiting<'a>>
    requires typed { IsTyped spec }
    ensures ready { IsReady is_ready result }
    ensures follows { Follows due (loads_listed image.now spec) result }
    ensures fewer { loads_of left result ≤ 1 }
{
    Move::Load {
        name: image,
        limit: image_limit(&spec),
        long: b"too long image\n",
        stage: Waiting::Listed(spec),
    }
}

// `edit` goes on with the specification.
fn load_edited<'a>(
    spec: Spec,
    image: &'a str,
    script: &'a str,
    out: &'a str,
) -> Move<'a, Waiting<'a>>
    requires typed { IsTyped spec }
    ensures ready { IsReady is_ready result }
    ensures follows { Follows due (loads_edited image.now script.now out.now spec) result }
    ensures fewer { loads_of left result ≤ 2 }
{
    Move::Load {
        name: image,
        limit: image_limit(&spec),
        long: b"too long image\n",
        stage: Waiting::Edited { spec, script, out },
    }
}

// What a task comes to for the specification of a tree.
fn go_on_with<'a>(
    alloc: Global,
    task: Task<'a>,
    tree: &Tree,
    spec: Spec,
) -> Result<Move<'a, Waiting<'a>>, NoMemory>
    requires spec { IsSpecOf (tree_shape tree.now) spec }
    ensures ready { IfOk result (λ move. IsReady is_ready move) }
    ensures follows { IfOk result (λ move. Follows due (comes_to task.entry (tree_shape tree.now)) move) }
    ensures fewer { IfOk result (λ move. loads_of left move ≤ loaded_for task.entry) }
{
    match task {
        Task::Audit {
            image,
            report,
            fixed,
        } => load_audited(alloc, spec, image, report, fixed),
        Task::Certify { certificate } => save_certificate(alloc, &spec, certificate),
        Task::Check { image } => Ok(load_image(spec, image)),
        Task::Edit { image, script, out } => Ok(load_edited(spec, image, script, out)),
        Task::Lost { image } => Ok(load_listed(spec, image)),
        Task::Plan => Ok(Move::Tell(plan(alloc, &spec)?)),
        Task::Repair { image, out } => load_damaged(alloc, spec, image, out),
        Task::Text => tell_text(alloc, tree),
        Task::Undo { fixed, report, out } => Ok(load_repaired(spec, fixed, report, out)),
        Task::Verify { certificate } => Ok(load_certificate(spec, certificate)),
        Task::Why { image, fact } => Ok(load_explained(spec, image, fact)),
    }
}

// A task goes on with the text of its specification: what that means, or why it means nothing, is told.
fn read_spec<'a>(
    alloc: Global,
    text: &[u8],
    task: Task<'a>,
) -> Result<Move<'a, Waiting<'a>>, NoMemory>
    ensures ready { IfOk result (λ move. IsReady is_ready move) }
    ensures follows { IfOk result (λ move. Follows due (reads text.now (comes_to task.entry)) move) }
    ensures fewer { IfOk result (λ move. loads_of left move ≤ loaded_for task.entry) }
{
    match read(alloc, text)? {
        Reading::Means(tree, spec) => go_on_with(alloc, task, &tree, spec),
        Reading::Refused(told) => Ok(Move::Tell(told)),
    }
}

// `repair` goes on with the image.
fn save_repaired<'a>(
    alloc: Global,
    spec: &Spec,
    choice: Choice,
    image: Vec<u8>,
    out: &'a str,
) -> Result<Move<'a, Waiting<'a>>, NoMemory>
    requires typed { IsTyped spec.now }
    requires taken { IsTaken spec.now choice }
    requires small { length image.items ≤ most_bytes }
    ensures ready { IfOk result (λ move. IsReady is_ready move) }
    ensures follows { IfOk result (λ move. Follows due (repairs out.now spec.now choice image.items) move) }
    ensures fewer { IfOk result (λ move. loads_of left move ≤ 0) }
{
    let plan = Plan::adopt(spec, choice);
    match repair(alloc, &plan, image)? {
        Repaired::Saved(bytes, told) => Ok(Move::Save {
            name: out,
            bytes,
            told,
        }),
        Repaired::Unsaved(told) => Ok(Move::Tell(told)),
    }
}

// `audit` goes on with the image.
fn load_report<'a>(
    alloc: Global,
    spec: Spec,
    choice: Choice,
    image: Vec<u8>,
    report: &'a str,
    fixed: &'a str,
) -> Result<Move<'a, Waiting<'a>>, NoMemory>
    requires typed { IsTyped spec }
    requires taken { IsTaken spec choice }
    requires small { length image.items ≤ most_bytes }
    ensures ready { IfOk result (λ move. IsReady is_ready move) }
    ensures follows { IfOk result (λ move. Follows due
        (lays_out report.now fixed.now spec choice image.items) move) }
    ensures fewer { IfOk result (λ move. loads_of left move ≤ 2) }
{
    match lay_out(alloc, &spec, &image)? {
        Laid::Layout(layout) => Ok(Move::Load {
            name: report,
            limit: REPORT_LIMIT,
            long: b"too long report\n",
            stage: Waiting::AuditedReport {
                spec,
                choice,
                layout,
                image,
                fixed,
            },
        }),
        Laid::Refused(told) => Ok(Move::Tell(told)),
    }
}

// `audit` goes on with the report.
fn load_fixed<'a>(
    spec: Spec,
    choice: Choice,
    layout: Layout,
    image: Vec<u8>,
    report: Vec<u8>,
    fixed: &'a str,
) -> Move<'a, Waiting<'a>>
    requires taken { IsTaken spec choice }
    requires image { IsImageOf spec layout image.items }
    ensures ready { IsReady is_ready result }
    ensures follows { Follows due
        (loads_for fixed.now spec (audits spec choice image.items report.items)) result }
    ensures fewer { loads_of left result ≤ 1 }
{
    Move::Load {
        name: fixed,
        limit: image_limit(&spec),
        long: b"too long image\n",
        stage: Waiting::AuditedEnd {
            spec,
            choice,
            layout,
            image,
            report,
        },
    }
}

// `audit` goes on with the bytes that the repair is said to have left.
fn tell_audit<'a>(
    alloc: Global,
    spec: &Spec,
    choice: Choice,
    layout: &Layout,
    image: Vec<u8>,
    report: &[u8],
    fixed: &[u8],
) -> Result<Move<'a, Waiting<'a>>, NoMemory>
    requires taken { IsTaken spec.now choice }
    requires image { IsImageOf spec.now layout.now image.items }
    ensures ready { IfOk result (λ move. IsReady is_ready move) }
    ensures follows { IfOk result (λ move. Follows due
        (audits spec.now choice image.items report.now fixed.now) move) }
    ensures fewer { IfOk result (λ move. loads_of left move ≤ 0) }
{
    let plan = Plan::adopt(spec, choice);
    Ok(Move::Tell(audit(alloc, &plan, layout, image, report, fixed)?))
}

// `undo` goes on with the image.
fn load_undone<'a>(
    spec: Spec,
    fixed: Vec<u8>,
    report: &'a str,
    out: &'a str,
) -> Move<'a, Waiting<'a>>
    requires typed { IsTyped spec }
    requires small { length fixed.items ≤ most_bytes }
    ensures ready { IsReady is_ready result }
    ensures follows { Follows due (loads_undone report.now out.now spec fixed.items) result }
    ensures fewer { loads_of left result ≤ 1 }
{
    Move::Load {
        name: report,
        limit: REPORT_LIMIT,
        long: b"too long report\n",
        stage: Waiting::UndoneReport { spec, fixed, out },
    }
}

// `undo` goes on with the report.
fn save_undone<'a>(
    alloc: Global,
    spec: &Spec,
    fixed: Vec<u8>,
    report: &[u8],
    out: &'a str,
) -> Result<Move<'a, Waiting<'a>>, NoMemory>
    requires typed { IsTyped spec.now }
    requires small { length fixed.items ≤ most_bytes }
    ensures ready { IfOk result (λ move. IsReady is_ready move) }
    ensures follows { IfOk result (λ move. Follows due
        (undoes out.now spec.now fixed.items report.now) move) }
    ensures fewer { IfOk result (λ move. loads_of left move ≤ 0) }
{
    match undo(alloc, spec, fixed, report)? {
        Undone::Saved(bytes, told) => Ok(Move::Save {
            name: out,
            bytes,
            told,
        }),
        Undone::Unsaved(told) => Ok(Move::Tell(told)),
    }
}

// `edit` goes on with the image.
fn load_script<'a>(
    alloc: Global,
    spec: Spec,
    image: Vec<u8>,
    script: &'a str,
    out: &'a str,
) -> Result<Move<'a, Waiting<'a>>, NoMemory>
    requires typed { IsTyped spec }
    requires small { length image.items ≤ most_bytes }
    ensures ready { IfOk result (λ move. IsReady is_ready move) }
    ensures follows { IfOk result (λ move. Follows due
        (opens script.now out.now spec image.items) move) }
    ensures fewer { IfOk result (λ move. loads_of left move ≤ 1) }
{
    match open(alloc, spec, image)? {
        Opened::Ready(ready) => Ok(Move::Load {
            name: script,
            limit: SCRIPT_LIMIT,
            long: b"too long script\n",
            stage: Waiting::EditScript { ready, out },
        }),
        Opened::Refused(told) => Ok(Move::Tell(told)),
    }
}

// `edit` goes on with the script.
fn save_edited<'a>(
    alloc: Global,
    ready: Ready,
    script: &[u8],
    out: &'a str,
) -> Result<Move<'a, Waiting<'a>>, NoMemory>
    ensures ready { IfOk result (λ move. IsReady is_ready move) }
    ensures follows { IfOk result (λ move. Follows due
        (edits out.now ready.0 ready.1 script.now) move) }
    ensures fewer { IfOk result (λ move. loads_of left move ≤ 0) }
{
    match edit(alloc, ready, script)? {
        Edited::Saved(bytes, told) => Ok(Move::Save {
            name: out,
            bytes,
            told,
        }),
        Edited::Unsaved(told) => Ok(Move::Tell(told)),
    }
}

// What a command that waits does next, once the bytes of its file came.
fn next_move<'a>(
    alloc: Global,
    stage: Waiting<'a>,
    bytes: Vec<u8>,
) -> Result<Move<'a, Waiting<'a>>, NoMemory>
    requires { is_ready stage bytes.items }
    ensures ready { IfOk result (λ move. IsReady is_ready move) }
    ensures follows { IfOk result (λ move. Follows due (due stage.entry bytes.items) move) }
    ensures fewer { IfOk result (λ move. loads_of left move ≤ left stage.entry) }
{
    match stage {
        Waiting::Spec(task) => read_spec(alloc, &bytes, task),
        Waiting::Image(spec) => Ok(Move::Tell(check(alloc, &spec, bytes)?)),
        Waiting::Damaged { spec, choice, out } => save_repaired(alloc, &spec, choice, bytes, out),
        Waiting::Certificate(spec) => Ok(Move::Tell(verify(alloc, &spec, &bytes)?)),
        Waiting::Audited {
            spec,
            choice,
            report,
            fixed,
        } => load_report(alloc, spec, choice, bytes, report, fixed),
        Waiting::AuditedReport {
            spec,
            choice,
            layout,
            image,
            fixed,
        } => Ok(load_fixed(spec, choice, layout, image, bytes, fixed)),
        Waiting::AuditedEnd {
            spec,
            choice,
            layout,
            image,
            report,
        } => tell_audit(alloc, &spec, choice, &layout, image, &report, &bytes),
        Waiting::Repaired { spec, report, out } => Ok(load_undone(spec, bytes, report, out)),
        Waiting::UndoneReport { spec, fixed, out } => save_undone(alloc, &spec, fixed, &bytes, out),
        Waiting::Explained { spec, fact } => {
            Ok(Move::Tell(why(alloc, &spec, bytes, fact.as_bytes())?))
        }
        Waiting::Listed(spec) => Ok(Move::Tell(lost(alloc, &spec, bytes)?)),
        Waiting::Edited { spec, script, out } => load_script(alloc, spec, bytes, script, out),
        Waiting::EditScript { ready, out } => save_edited(alloc, ready, &bytes, out),
    }
}

impl<'a> Stage<'a> for Waiting<'a> {
    ghost use Rattle.dsr_cli.specs.Stages as stages;

    ghost due = { λ stage bytes came next. stages.due stage bytes came next };

    ghost left = { λ stage. stages.left stage };

    ghost ready = { λ stage bytes. stages.is_ready stage bytes };

    fn go_on(self, alloc: Global, bytes: Vec<u8>) -> Result<Move<'a, Self>, AllocError> {
        match next_move(alloc, self, bytes) {
            Ok(next) => Ok(next),
            Err(NoMemory) => Err(AllocError),
        }
    }
}

// What a command does first: a trial is told, and each other one loads the text of its specification.
fn first_move<'a>(alloc: Global, command: Command<'a>) -> Result<Move<'a, Waiting<'a>>, NoMemory>
    ensures ready { IfOk result (λ move. IsReady is_ready move) }
    ensures follows { IfOk result (λ move. Follows due (script_of (Some (asked_of command.entry))) move) }
{
    match command {
        Command::Of { spec, task } => Ok(Move::Load {
            name: spec,
            limit: SPEC_LIMIT,
            long: b"too long spec\n",
            stage: Waiting::Spec(task),
        }),
        Command::Trial(number) => Ok(Move::Tell(trial(alloc, number)?)),
    }
}

impl<'a> Commands<'a> for Waiting<'a> {
    ghost use Rattle.dsr_command_theory.specs.Commands as commands;

    ghost asked = { λ words came next. commands.asked words came next };

    fn begin(alloc: Global, words: &'a [String]) -> Result<Move<'a, Self>, AllocError> {
        match command_of(words) {
            Some(command) => match first_move(alloc, command) {
                Ok(first) => Ok(first),
                Err(NoMemory) => Err(AllocError),
            },
            None => match told(alloc, Verdict::Usage, b"usage\n") {
                Ok(told) => Ok(Move::Tell(told)),
                Err(NoMemory) => Err(AllocError),
            },
        }
    }
}
