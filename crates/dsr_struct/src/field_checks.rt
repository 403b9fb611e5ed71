// The faults of fields.
ghost use Rattle.std.specs.Prelude.{◌≡◌, ◌<◌, ◌%◌, ◌&&◌, ◌||◌, not, nat_eq, is_some, map, slice_get};
ghost use Rattle.dsr_tree.specs.Trees.{field_shape, named_shape, structure_shape};
ghost use Rattle.dsr_language_theory.specs.Declarations.{entry_bits, is_bytewise, width_faults, content_faults, extent_of, is_open, has_open, is_open_structure, inherits_open, is_declared_above, is_misplaced, named_field_faults, field_faults, position_of};
ghost use Rattle.dsr_meaning.specs.Extents.{bit_behind};
ghost use Rattle.dsr_meaning.specs.Lists.{each_at};
ghost use Rattle.dsr_struct.specs.Known.{known_of, place_of};
ghost use Rattle.dsr_names.specs.Telling.{Finds};

use crate::expr_checks::{check_expr, check_maybe_expr, has_open_length, is_number};
use crate::lookups::Names;
use crate::names::is_head;
use dsr_ir::Name;
use dsr_names::{Told, is_at, is_too_wide};
use dsr_tree::{Condition, Content, Field, NamedField, Structure, Width};

/// Where a field stands.
#[derive(Clone, Copy)]
pub struct Position {
    /// The number of its structure.
    pub structure: usize,
    /// Its number there.
    pub number: usize,
    /// Whether the structure is the one of the record at byte 0.
    pub in_head: bool,
    /// Whether a byte begins where the field does.
    pub on_byte: bool,
    /// Whether an array or a gap whose length isn't a number stands before it.
    pub behind_open: bool,
}

fn entry_bits(width: Width) -> u64
    ensures { result ≡ entry_bits width }
{
    match width {
        Width::U8 { .. } => 8,
        Width::U16 { .. } => 16,
        Width::U32 { .. } => 32,
        Width::U64 { .. } => 64,
        Width::Bits { number, .. } => number.number,
    }
}

fn is_bytewise(width: Width) -> bool
    ensures { result ≡ is_bytewise width }
{
    match width {
        Width::Bits { .. } => false,
        _ => true,
    }
}

fn check_width(told: &mut Told, width: Width)
    ensures { Finds (width_faults width) told.old.fault told.new.fault }
{
    if let Width::Bits { number, .. } = width {
        let is_legal = 1 <= number.number && number.number <= 32;
        told.note_if(!is_legal, Condition::Width, number.place);
    }
}

// The bit inside a byte at which the next field begins, behind one that begins at such a bit.
fn bit_behind(bit: u64, field: &Field) -> u64
    requires { bit < 8 }
    ensures { result ≡ bit_behind bit (extent_of (field_shape field.now)) % 8 }
{
    match field {
        Field::Named(field) if field.length.is_none() => (bit + entry_bits(field.width) % 8) % 8,
        _ => 0,
    }
}

// Whether a field is an array or a gap whose length isn't a number.
fn is_open(field: &Field) -> bool
    ensures { result ≡ is_open (field_shape field.now) }
{
    match field {
        Field::Named(field) => has_open_length(&field.length),
        Field::Skip { length, .. } => !is_number(length),
    }
}

fn has_open(fields: &[Field]) -> bool
    ensures { result ≡ has_open (map field_shape fields.now) }
{
    for field in fields {
        if is_open(field) {
            return true;
        }
    }
    false
}

// Whether a field may not be fixed where it stands.
fn is_misplaced(at: Position, field: &NamedField) -> bool
    ensures { result ≡ is_misplaced (place_of at) (named_shape field.now) }
{
    !at.in_head || field.length.is_some() || at.behind_open
}

// Whether a field has to begin where a byte does, and doesn't.
fn is_misaligned(at: Position, field: &NamedField) -> bool
    ensures { let f = named_shape field.now in result
        ≡ ((is_bytewise f.width || is_some f.length) && not at.on_byte) }
{
    (is_bytewise(field.width) || field.length.is_some()) && !at.on_byte
}

impl Names<'_> {
    fn is_open_structure(&self, structure: usize) -> bool
        ensures { result ≡ is_open_structure (known_of self.now) structure }
    {
        match self.tree.structures.items().get(structure) {
            Some(structure) => has_open(structure.fields.items()),
            None => false,
        }
    }

    // Whether an ancestor of a structure has an array or a gap whose length isn't a number.
    fn inherits_open(&self, structure: usize) -> bool
        ensures { result ≡ inherits_open (known_of self.now) structure }
    {
        for ancestor in self.ancestors(structure) {
            if self.is_open_structure(*ancestor as usize) {
                return true;
            }
        }
        false
    }

    // Whether a field's name stands before it in its structure or in an ancestor.
    fn is_declared_above(&self, at: Position, name: &Name) -> bool
        ensures { result ≡ is_declared_above (known_of self.now) (place_of at) name.now }
    {
        !is_at(at.number, self.own_field(at.structure, name)) || self.inherits(at.structure, name)
    }

    fn check_content(&self, told: &mut Told, width: Width, content: &Option<Content>)
        ensures { Finds (content_faults
            (known_of self.now).pool width content.now) told.old.fault
            told.new.fault }
    {
        match content {
            Some(Content::Init { number, .. }) => {
                let is_wide = is_too_wide(number.number, entry_bits(width));
                told.note_if(is_wide, Condition::Width, number.place);
            }
            Some(Content::Refers { pool, .. }) => told.note_unknown(self.pool(&pool.name), pool),
            None => (),
        }
    }

    fn check_named_field(&self, told: &mut Told, at: Position, field: &NamedField)
        ensures { Finds (named_field_faults (known_of self.now) (place_of at)
            (named_shape field.now)) told.old.fault told.new.fault }
    {
        let place = field.name.place;
        let is_twice = self.is_declared_above(at, &field.name.name);
        let is_misplaced = field.fixed.is_some() && is_misplaced(at, field);
        told.note_if(is_twice, Condition::NameTwice, place);
        told.note_if(at.number == 64, Condition::Limit, place);
        told.note_if(is_misaligned(at, field), Condition::Align, place);
        told.note_if(is_misplaced, Condition::FixedPlace, place);
        check_width(told, field.width);
        check_maybe_expr(told, &self.tables.structures.numbers.fixed, &field.length);
        self.check_content(told, field.width, &field.content);
    }

    fn check_field(&self, told: &mut Told, at: Position, field: &Field)
        ensures { Finds (field_faults (known_of self.now) (place_of at) (field_shape field.now))
            told.old.fault told.new.fault }
    {
        match field {
            Field::Named(field) => self.check_named_field(told, at, field),
            Field::Skip { place, length } => {
                told.note_if(at.number == 64, Condition::Limit, *place);
                told.note_if(!at.on_byte, Condition::Align, *place);
                check_expr(told, &self.tables.structures.numbers.fixed, length);
            }
        }
    }

    /// The faults of the fields that a structure declares itself.
    pub fn check_fields(&self, told: &mut Told, number: usize, structure: &Structure)
        ensures { let s = structure_shape structure.now in
            Finds (each_at (λ j f. field_faults (known_of self.now) (position_of (known_of self.now) number s j) f) 0 s.fields) told.old.fault told.new.fault }
    {
        let in_head = is_head(&structure.name.name);
        let mut bit = 0;
        let mut behind_open = self.inherits_open(number);
        for (j, field) in structure.fields.items().iter().enumerate() {
            let at = Position {
                structure: number,
                number: j,
                in_head,
                on_byte: bit == 0,
                behind_open,
            };
            self.check_field(told, at, field);
            bit = bit_behind(bit, field);
            behind_open = behind_open || is_open(field);
        }
    }
}
