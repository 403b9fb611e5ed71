// Names of what a specification declares, and of records and bindings.
ghost use Rattle.std.specs.Prelude.{◌≡◌, ◌++◌, OnOk};
ghost use Rattle.dsr_answers.specs.Texts as texts;

use crate::texts::{push, push_behind};
use dsr_ir::{Binding, Element, NoMemory, Spec, Symbol};

/// The name of a pool; `head` for the one that is numbered 0.
pub fn pool_name(spec: &Spec, pool: u32) -> &[u8]
    ensures { result.now ≡ texts.pool_name spec.now pool }
{
    if pool == 0 {
        return b"head";
    }
    match spec.base.pools.items().get(pool as usize - 1) {
        Some(pool) => pool.name.bytes(),
        None => b"",
    }
}

/// The name of a constraint.
pub fn constraint_name(spec: &Spec, constraint: u32) -> &[u8]
    ensures { result.now ≡ texts.constraint_name spec.now constraint }
{
    match spec.constraints.items().get(constraint as usize) {
        Some(constraint) => constraint.name.bytes(),
        None => b"",
    }
}

/// The name of a set or of a relation.
pub fn symbol_name(spec: &Spec, symbol: Symbol) -> &[u8]
    ensures { result.now ≡ texts.symbol_name spec.now symbol }
{
    match symbol {
        Symbol::Set(set) => match spec.base.sets.items().get(set as usize) {
            Some(set) => set.name.bytes(),
            None => b"",
        },
        Symbol::Rel(rel) => match spec.base.rels.items().get(rel as usize) {
            Some(rel) => rel.name.bytes(),
            None => b"",
        },
    }
}

/// The name of a structure.
pub fn structure_name(spec: &Spec, structure: u32) -> &[u8]
    ensures { result.now ≡ texts.structure_name spec.now structure }
{
    match spec.base.structures.items().get(structure as usize) {
        Some(structure) => structure.name.bytes(),
        None => b"",
    }
}

/// The name of one of a structure's own fields.
pub fn field_name(spec: &Spec, structure: u32, field: u32) -> &[u8]
    ensures { result.now ≡ texts.field_name spec.now structure field }
{
    let Some(structure) = spec.base.structures.items().get(structure as usize) else {
        return b"";
    };
    match structure.fields.items().get(field as usize) {
        Some(field) => field.name.bytes(),
        None => b"",
    }
}

/// Appends what a record is called.
pub fn push_element(text: &mut Vec<u8>, spec: &Spec, elem: Element) -> Result<(), NoMemory>
    ensures { OnOk result (text.new.items ≡ text.old.items ++ texts.element_text spec.now elem) }
{
    push(text, pool_name(spec, elem.pool))?;
    if elem.pool == 0 {
        return Ok(());
    }
    push_behind(text, b'[', u64::from(elem.slot))?;
    push(text, b"]")
}

/// Appends what a binding is called.
pub fn push_binding(text: &mut Vec<u8>, spec: &Spec, binding: &Binding) -> Result<(), NoMemory>
    ensures { OnOk result (text.new.items ≡ text.old.items
        ++ texts.binding_text spec.now binding.now) }
{
    match *binding {
        Binding::Once => push(text, b"-"),
        Binding::Each(elem) => push_element(text, spec, elem),
        Binding::Pair(first, second) => {
            push(text, b"<")?;
            push_element(text, spec, first)?;
            push(text, b",")?;
            push_element(text, spec, second)?;
            push(text, b">")
        }
    }
}
