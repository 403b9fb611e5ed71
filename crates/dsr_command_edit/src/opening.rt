// An image that is to be edited.
ghost use Rattle.std.specs.Prelude.{◌≤◌, IfOk, length};
ghost use Rattle.dsr_command_edit.specs.Ends.{HasReady, opening_of};
ghost use Rattle.dsr_command_edit.specs.Opened.{IsOpening};
ghost use Rattle.dsr_meaning.specs.Limits.{most_bytes};
ghost use Rattle.dsr_meaning.specs.Typed.{IsTyped};

use crate::ready::Ready;
use dsr_answers::{layout_refused, verdict};
use dsr_command_image::laid_out;
use dsr_edit::{OpenFault, Session};
use dsr_image::Whole;
use dsr_ir::{NoMemory, Spec};
use dsr_script::Told;
use std::alloc::Global;

/// What comes of opening an image for edits.
#[derive(Drop)]
pub enum Opened {
    /// The image may be edited.
    Ready(Ready),
    /// The answer that the image has no layout, or isn't consistent.
    Refused(Told),
}

/// Opens an image for edits: it has to have a layout, and to be consistent.
pub fn open(alloc: Global, spec: Spec, image: Vec<u8>) -> Result<Opened, NoMemory>
    requires typed { IsTyped spec }
    requires small { length image.items ≤ most_bytes }
    ensures opened { IfOk result (λ opened. IsOpening spec image.items (opening_of opened)) }
    ensures ready { IfOk result (HasReady spec image.items) }
{
    let layout = match laid_out(alloc, &spec, &image) {
        Ok(layout) => layout,
        Err(fault) => return Ok(Opened::Refused(layout_refused(alloc, &spec, fault)?)),
    };
    let paused = match Session::begin(alloc, &spec, &layout, Whole::new(image)) {
        Ok(session) => session.pause(),
        Err(OpenFault::Violated(found)) => {
            return Ok(Opened::Refused(verdict(alloc, &spec, &found)?));
        }
        Err(OpenFault::NoMemory) => return Err(NoMemory),
    };
    Ok(Opened::Ready(Ready::new(spec, layout, paused)))
}
