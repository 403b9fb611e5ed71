// An image is edited as a script says.
ghost use Rattle.std.specs.Prelude.{◌≡◌, ◌<◌, ◌^◌, IfOk, MatchOption, Some, length, map, slice_get};
ghost use Rattle.dsr_command_edit.specs.Edited.{IsEditOf};
ghost use Rattle.dsr_command_edit.specs.Ends.{IsJudgement, IsOutcome, IsStep, TellsFault, ending_of};
ghost use Rattle.dsr_command_edit.specs.Named.{AreWritesOf, CanBeMade, IsWriteOf};
ghost use Rattle.dsr_edit.specs.Edits.{MayWriteSome};
ghost use Rattle.dsr_edit_text.specs.Scripts.{script_texts};
ghost use Rattle.dsr_edit.specs.declared.groups.CellWrite as places;
ghost use Rattle.dsr_edit_text.specs.Shown.{shown, shown_groups};
ghost use Rattle.dsr_meaning.specs.Counting.{IsIn};
ghost use Rattle.dsr_meaning.specs.Typed.{IsTyped};

use crate::named::write_of;
use crate::ready::Ready;
use crate::texts::{broken_told, edited_told, unread_told, unwritable_told};
use dsr_edit::{CellWrite, EditFault, Session};
use dsr_edit_text::{ScriptFault, SetLine, read};
use dsr_ir::{Binding, NoMemory, Spec};
use dsr_script::Told;
use std::alloc::Global;

/// What comes of an edit.
#[derive(Drop)]
pub enum Edited {
    /// The bytes that are to be saved, and what is told then.
    Saved(Vec<u8>, Told),
    /// The answer that the script can't be read, or that one of its edits isn't allowed.
    Unsaved(Told),
}

// What the lines of a group come to.
#[derive(Drop)]
enum Judgement {
    /// The writes that they name, each of which can be made.
    Writes(Vec<CellWrite>),
    /// The place of the first line that names none which can be made.
    Unwritable(u64),
}

// How a group ends.
#[derive(Clone, Copy, Drop)]
enum Step {
    Made,
    /// The place of the first line that can't be made.
    Unwritable(u64),
    /// The constraint would be violated after it.
    Broken(u32, Binding),
}

// How the groups of a script end.
#[derive(Clone, Copy, Drop)]
enum Outcome {
    /// All were made.
    Made,
    /// The number of the first line that can't be made.
    Unwritable(u64),
    /// A constraint would be violated after the group of this number.
    Broken(u64, u32, Binding),
}

// The write that the line names, where it can be made.
fn writable(session: &Session, spec: &Spec, set: &SetLine) -> Option<CellWrite>
    requires spec { session.now.0 ≡ spec.now }
    requires typed { IsTyped spec.now }
    ensures { MatchOption result (CanBeMade spec.now session.now.1 (shown set.now) → ⊥)
        (λ write. IsWriteOf spec.now (shown set.now) write
        × MayWriteSome spec.now session.now.1 write) }
{
    let Some(write) = write_of(spec, set) else {
        return None;
    };
    if !session.may_write(&write) {
        return None;
    }
    Some(write)
}

// The line at this place.
fn line_at<'a>(group: &[SetLine<'a>], place: usize) -> SetLine<'a>
    requires inside { place < length group.now }
    ensures { slice_get group.now place ≡ Some result }
{
    group[place]
}

// Judges the lines of a group.
fn judge(
    alloc: Global,
    session: &Session,
    spec: &Spec,
    group: &[SetLine],
) -> Result<Judgement, NoMemory>
    requires spec { session.now.0 ≡ spec.now }
    requires typed { IsTyped spec.now }
    ensures { IfOk result (IsJudgement spec.now session.now.1 (map shown group.now)) }
{
    let mut writes = Vec::with_capacity(alloc, group.len())?;
    for place in 0..group.len() {
        let set = line_at(group, place);
        let Some(write) = writable(session, spec, &set) else {
            return Ok(Judgement::Unwritable(place as u64));
        };
        writes.push(write)?;
    }
    Ok(Judgement::Writes(writes))
}

// What a refusal tells.
fn refused(fault: EditFault) -> Result<Step, NoMemory>
    ensures { IfOk result (TellsFault fault) }
{
    match fault {
        EditFault::Cell(place) => Ok(Step::Unwritable(place)),
        EditFault::Broken(constraint, binding) => Ok(Step::Broken(constraint, binding)),
        EditFault::NoMemory => Err(NoMemory),
    }
}

// Makes the writes that the lines of a group name.
fn make(
    alloc: Global,
    session: &mut Session,
    spec: &Spec,
    group: &[SetLine],
    writes: &[CellWrite],
) -> Result<Step, NoMemory>
    requires spec { session.old.0 ≡ spec.now }
    requires writes { AreWritesOf spec.now (map shown group.now) writes.now }
    requires may { (write : places.CellWrite) → IsIn write writes.now
        → MayWriteSome spec.now session.old.1 write }
    ensures spec { session.new.0 ≡ session.old.0 }
    ensures layout { session.new.1 ≡ session.old.1 }
    ensures step { IfOk result (IsStep spec.now session.old.1 (map shown group.now) session.old.2
        session.new.2) }
{
    match session.edit(alloc, writes) {
        Ok(()) => Ok(Step::Made),
        Err(fault) => refused(fault),
    }
}

// Makes a group, where its lines name writes that can be made.
fn edit_group(
    alloc: Global,
    session: &mut Session,
    spec: &Spec,
    group: &[SetLine],
) -> Result<Step, NoMemory>
    requires spec { session.old.0 ≡ spec.now }
    requires typed { IsTyped spec.now }
    ensures spec { session.new.0 ≡ session.old.0 }
    ensures layout { session.new.1 ≡ session.old.1 }
    ensures step { IfOk result (IsStep spec.now session.old.1 (map shown group.now) session.old.2
        session.new.2) }
{
    match judge(alloc, session, spec, group)? {
        Judgement::Writes(writes) => make(alloc, session, spec, group, &writes),
        Judgement::Unwritable(place) => Ok(Step::Unwritable(place)),
    }
}

// Makes the groups of a script, one after the other, as long as each may be made.
fn edit_groups(
    alloc: Global,
    session: &mut Session,
    spec: &Spec,
    groups: &[Vec<SetLine>],
) -> Result<Outcome, NoMemory>
    requires spec { session.old.0 ≡ spec.now }
    requires typed { IsTyped spec.now }
    requires few { length (script_texts (shown_groups groups.now)) < 2 ^ 63 }
    ensures same { session.new.1 ≡ session.old.1 }
    ensures outcome { IfOk result (IsOutcome spec.now session.old.1 (shown_groups groups.now)
        session.old.2 session.new.2) }
{
    let mut line = 1;
    for (number, group) in groups.iter().enumerate() {
        match edit_group(alloc, session, spec, group)? {
            Step::Made => line += group.len() as u64 + 1,
            Step::Unwritable(place) => return Ok(Outcome::Unwritable(line + place)),
            Step::Broken(constraint, binding) => {
                return Ok(Outcome::Broken(number as u64 + 1, constraint, binding));
            }
        }
    }
    Ok(Outcome::Made)
}

/// Edits an image as a script says: all of its groups are made, or nothing is saved.
pub fn edit(alloc: Global, ready: Ready, script: &[u8]) -> Result<Edited, NoMemory>
    ensures { IfOk result (λ edited. IsEditOf ready.0 ready.1 script.now (ending_of edited)) }
{
    let Ready {
        spec,
        layout,
        paused,
    } = ready;
    let groups = match read(alloc, spec.base.version == 2, script) {
        Ok(groups) => groups,
        Err(ScriptFault::Line(line)) => return Ok(Edited::Unsaved(unread_told(alloc, line)?)),
        Err(ScriptFault::NoMemory) => return Err(NoMemory),
    };
    let mut session = Session::resume(&spec, &layout, paused);
    match edit_groups(alloc, &mut session, &spec, &groups)? {
        Outcome::Made => {
            let told = edited_told(alloc, groups.len() as u64)?;
            Ok(Edited::Saved(session.into_bytes(), told))
        }
        Outcome::Unwritable(line) => Ok(Edited::Unsaved(unwritable_told(alloc, line)?)),
        Outcome::Broken(group, constraint, binding) => Ok(Edited::Unsaved(broken_told(
            alloc, &spec, group, constraint, &binding,
        )?)),
    }
}
