// The bytes that a session holds.
ghost use Rattle.std.specs.Prelude.{◌≤◌, length};
ghost use Rattle.dsr_meaning.specs.Limits.{most_bytes};
ghost use Rattle.dsr_meaning.specs.Typed.{IsTyped};
ghost use Rattle.dsr_step_theory.specs.Images.{IsImageOf};

use dsr_command_image::laid_out;
use dsr_edit::{OpenFault, Session};
use dsr_image::Whole;
use dsr_ir::{Layout, NoMemory, Spec};
use dsr_test_text::Lines;
use std::alloc::Global;

/// Adds a line of bytes behind a word.
pub fn add_hex(lines: &mut Lines, alloc: Global, word: &str, bytes: &[u8]) {
    lines.word(word);
    match hex::encode(alloc, bytes) {
        Ok(digits) => lines.word(digits.as_str()),
        Err(_) => lines.word("no memory"),
    }
    lines.word("\n");
}

fn add_held(lines: &mut Lines, alloc: Global, session: &Session) {
    match session.bytes(alloc) {
        Ok(bytes) => add_hex(lines, alloc, "held ", &bytes),
        Err(NoMemory) => lines.word("no memory\n"),
    }
}

fn add_begun(lines: &mut Lines, alloc: Global, spec: &Spec, layout: &Layout, image: Vec<u8>)
    requires image { IsImageOf spec.now layout.now image.items }
{
    match Session::begin(alloc, spec, layout, Whole::new(image)) {
        Ok(session) => add_held(lines, alloc, &session),
        Err(OpenFault::Violated(found)) => {
            lines.part("not held ", found.len() as u64);
            lines.word("\n");
        }
        Err(OpenFault::NoMemory) => lines.word("no memory\n"),
    }
}

/// Adds the bytes that a session on the image holds, or how many bindings are violated.
pub fn add_session(lines: &mut Lines, alloc: Global, spec: &Spec, image: &[u8])
    requires typed { IsTyped spec.now }
    requires small { length image.now ≤ most_bytes }
{
    let Ok(copy) = Vec::from_slice(alloc, image) else {
        lines.word("no memory\n");
        return;
    };
    if let Ok(layout) = laid_out(alloc, spec, &copy) {
        add_begun(lines, alloc, spec, &layout, copy);
    }
}
