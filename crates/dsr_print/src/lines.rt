// Lines of declarations.
ghost use Rattle.std.specs.Prelude.{◌≡◌, ◌++◌, OnOk};
ghost use Rattle.dsr_syntax_theory.specs.Canonical.{lines_of};

use dsr_ir::NoMemory;

/// A part of a specification with a line of its own.
pub trait Declaration {
    ghost use Rattle.std.specs.Prelude.{OnOk};
    ghost use Rattle.dsr_syntax_theory.specs.Phrases.{Phrase};
    ghost use Rattle.dsr_print.specs.Writing.{AddsLine};

    /// The phrase of a declaration.
    ghost phrase: { Self → Phrase };

    /// Writes the declaration's line behind a text.
    fn add_line(&self, text: &mut Vec<u8>) -> Result<(), NoMemory>
        ensures { OnOk result (AddsLine (phrase self.now) text.old.items text.new.items) };
}

pub fn add_lines<T: Declaration>(text: &mut Vec<u8>, items: &[T]) -> Result<(), NoMemory>
    ensures { OnOk result (text.new.items ≡ text.old.items ++ lines_of T.phrase items.now) }
{
    for item in items {
        item.add_line(text)?;
    }
    Ok(())
}
