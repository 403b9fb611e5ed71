// Tests of fields that are known.
ghost use Rattle.std.specs.Prelude.{◌≡◌, option_map, option_and_then};
ghost use Rattle.dsr_meaning.specs.Instances.{declared_field, kind_pool};
ghost use Rattle.dsr_language_theory.specs.Known.{field_is};
ghost use Rattle.dsr_language_theory.specs.Rules.{array_field};
ghost use Rattle.dsr_language_theory.specs.RuleFaults.{is_number, is_reference, is_array, is_scalar, is_too_narrow, refers_elsewhere, is_other_target};
ghost use Rattle.dsr_names.specs.Tables.{known_of};

use crate::comparing::{disagree, is_other_target, is_too_wide, width_bits};
use crate::known::Known;
use dsr_ir::{Field, FieldRef, Kind, Name};

// The pool to which a field refers; none for a number.
fn referred_pool(field: &Field) -> Option<u32>
    ensures { result ≡ kind_pool field.now.kind }
{
    match field.kind {
        Kind::Refers { pool } => Some(pool),
        _ => None,
    }
}

fn is_number(field: &Field) -> bool
    ensures { result ≡ is_number field.now }
{
    referred_pool(field).is_none()
}

// Whether a number field has no room for a constant.
fn is_too_narrow(constant: u64, field: &Field) -> bool
    ensures { result ≡ is_too_narrow constant field.now }
{
    is_number(field) && is_too_wide(constant, width_bits(field.width))
}

// Whether a field refers to another pool than this one, or is a number.
fn refers_elsewhere(pool: Option<u32>, field: &Field) -> bool
    ensures { result ≡ refers_elsewhere pool field.now }
{
    is_number(field) || disagree(referred_pool(field), pool)
}

impl<'a> Known<'a> {
    /// The field of a structure's records under a name, where the structure is known.
    pub fn array_field(&self, structure: Option<u32>, name: &Name) -> Option<FieldRef>
        ensures { result ≡ array_field (known_of self.now) structure name.now }
    {
        match structure {
            Some(structure) => self.field(structure, name),
            None => None,
        }
    }

    /// The declaration of a field, where that is known.
    pub fn declared(&self, field: Option<FieldRef>) -> Option<&'a Field>
        ensures { option_map (λ f. f.now) result ≡ option_and_then (declared_field self.now.base.now) field }
    {
        match field {
            Some(field) => self.declared_field(field),
            None => None,
        }
    }

    /// Whether a field is known to be a number.
    pub fn is_number(&self, field: Option<FieldRef>) -> bool
        ensures { result ≡ field_is self.now.base.now is_number field }
    {
        match self.declared(field) {
            Some(field) => is_number(field),
            None => false,
        }
    }

    /// Whether a field is known to be a reference.
    pub fn is_reference(&self, field: Option<FieldRef>) -> bool
        ensures { result ≡ field_is self.now.base.now is_reference field }
    {
        match self.declared(field) {
            Some(field) => referred_pool(field).is_some(),
            None => false,
        }
    }

    /// Whether a field is known to be an array.
    pub fn is_array(&self, field: Option<FieldRef>) -> bool
        ensures { result ≡ field_is self.now.base.now is_array field }
    {
        match self.declared(field) {
            Some(field) => field.len.is_some(),
            None => false,
        }
    }

    /// Whether a field is known to be no array.
    pub fn is_scalar(&self, field: Option<FieldRef>) -> bool
        ensures { result ≡ field_is self.now.base.now is_scalar field }
    {
        match self.declared(field) {
            Some(field) => field.len.is_none(),
            None => false,
        }
    }

    /// Whether a number field is known that has no room for a constant.
    pub fn is_too_narrow(&self, constant: u64, field: Option<FieldRef>) -> bool
        ensures { result ≡ field_is self.now.base.now (is_too_narrow constant) field }
    {
        match self.declared(field) {
            Some(field) => is_too_narrow(constant, field),
            None => false,
        }
    }

    /// Whether a field is known that refers to another pool than this one, or is a number.
    pub fn refers_elsewhere(&self, pool: Option<u32>, field: Option<FieldRef>) -> bool
        ensures { result ≡ field_is self.now.base.now (refers_elsewhere pool) field }
    {
        match self.declared(field) {
            Some(field) => refers_elsewhere(pool, field),
            None => false,
        }
    }

    /// Whether a field is known that hasn't got a relation's targets.
    pub fn is_other_target(&self, target: Option<u32>, field: Option<FieldRef>) -> bool
        ensures { result ≡ field_is self.now.base.now (λ f. is_other_target (kind_pool f.kind) target) field }
    {
        match self.declared(field) {
            Some(field) => is_other_target(referred_pool(field), target),
            None => false,
        }
    }
}
