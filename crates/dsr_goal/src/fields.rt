// Fields of a specification, and what is written to them.
ghost use Rattle.std.specs.Prelude.{◌≡◌};
ghost use Rattle.dsr_meaning.specs.Instances as meaning;
ghost use Rattle.dsr_update_theory.specs.Options as options;
ghost use Rattle.dsr_update_theory.specs.Templates as templates;

use dsr_ir::{FieldRef, Kind, Path, Pick, Structures, Write};
use dsr_schema::declared_field;

// The pool to which a kind of field refers.
fn kind_pool(kind: Kind) -> Option<u32>
    ensures { result ≡ meaning.kind_pool kind }
{
    match kind {
        Kind::Refers { pool } => Some(pool),
        Kind::Number { init: _ } | Kind::Gap => None,
    }
}

/// The pool to which a field refers.
pub fn referred(base: &Structures, field: FieldRef) -> Option<u32>
    ensures { result ≡ templates.referred base.now field }
{
    let field = declared_field(base, field)?;
    kind_pool(field.kind)
}

/// The write to a path whose field is a reference that may be written.
pub fn reference_write(base: &Structures, pick: Pick, path: Path) -> Option<Write>
    ensures { result ≡ options.reference_write base.now pick path }
{
    let field = declared_field(base, path.field)?;
    if field.fixed {
        return None;
    }
    let _pool = kind_pool(field.kind)?;
    Some(Write {
        path,
        pick,
        wants: None,
    })
}

/// The write to a path whose field isn't fixed.
pub fn value_write(base: &Structures, pick: Pick, path: Path) -> Option<Write>
    ensures { result ≡ templates.value_write base.now pick path }
{
    let field = declared_field(base, path.field)?;
    if field.fixed {
        return None;
    }
    Some(Write {
        path,
        pick,
        wants: None,
    })
}
