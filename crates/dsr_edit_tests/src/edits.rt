// Edits of an image by a script.
ghost use Rattle.std.specs.Prelude.{◌≤◌, length};
ghost use Rattle.dsr_meaning.specs.Limits.{most_bytes};
ghost use Rattle.dsr_meaning.specs.Typed.{IsTyped};

use crate::fields::add_fields;
use crate::sessions::{add_hex, add_session};
use dsr_command_edit::{Edited, Opened, Ready, edit, open};
use dsr_ir::{NoMemory, Spec};
use dsr_script::{Status, Told};
use dsr_spec::specification;
use dsr_test_text::Lines;
use std::alloc::Global;
use std::str;

// The most bytes of an image.
const MOST: usize = 67_108_864;

fn add_told(lines: &mut Lines, told: &Told) {
    lines.word(str::from_utf8(&told.text).unwrap_or("no text\n"));
    lines.part("status ", u64::from(Status::Said(told.verdict).number()));
    lines.word("\n");
}

fn add_edited(lines: &mut Lines, alloc: Global, ready: Ready, script: &[u8]) {
    match edit(alloc, ready, script) {
        Ok(Edited::Unsaved(told)) => add_told(lines, &told),
        Ok(Edited::Saved(bytes, told)) => {
            add_told(lines, &told);
            add_hex(lines, alloc, "saved ", &bytes);
        }
        Err(NoMemory) => lines.word("no memory\n"),
    }
}

fn add_opened(lines: &mut Lines, alloc: Global, spec: Spec, image: Vec<u8>, script: &[u8])
    requires typed { IsTyped spec }
    requires small { length image.items ≤ most_bytes }
{
    match open(alloc, spec, image) {
        Ok(Opened::Refused(told)) => add_told(lines, &told),
        Ok(Opened::Ready(ready)) => add_edited(lines, alloc, ready, script),
        Err(NoMemory) => lines.word("no memory\n"),
    }
}

/// Adds what fields affect, and what comes of the edits.
pub fn add_edits(lines: &mut Lines, alloc: Global, spec: &[u8], digits: &str, script: &[u8]) {
    let Ok(Some(spec)) = specification(alloc, spec) else {
        lines.word("no specification\n");
        return;
    };
    let Ok(image) = hex::decode(alloc, digits) else {
        lines.word("no bytes\n");
        return;
    };
    if image.len() > MOST {
        lines.word("too many bytes\n");
        return;
    }
    add_fields(lines, alloc, &spec);
    add_session(lines, alloc, &spec, &image);
    add_opened(lines, alloc, spec, image, script);
}
