// Tables from names to numbers.
ghost use Rattle.std.specs.Prelude.{◌≡◌, ◌+◌, ◌<◌, ◌^◌, ℕ, List, length, option_map, IfOk, OnOk};
ghost use Rattle.std.specs.List.{position_from};
ghost use Rattle.std.specs.Str.{bytes_eq};
ghost use Rattle.indexmap.specs.IndexMap.{get};
ghost use Rattle.dsr_language_theory.specs.Known.{is_this};
ghost use Rattle.dsr_names.specs.Tables.{is_named, entered};

use crate::named::Named;
use dsr_ir::{Name, NoMemory, TryClone};
use indexmap::IndexMap;
use std::alloc::Global;

/// Whether a name is known, and is this one.
pub fn is_this(known: Option<&Name>, name: &Name) -> bool
    ensures { result ≡ is_this (option_map (λ n. n.now) known.entry) name.now }
{
    match known {
        Some(known) => known == name,
        None => false,
    }
}

/// Enters a name under a number, where it isn't entered yet.
pub fn enter(
    alloc: Global,
    table: &mut IndexMap<Name, u32>,
    name: &Name,
    number: u32,
) -> Result<(), NoMemory>
    ensures { OnOk result ((q : List ℕ) → get bytes_eq table.new q
        ≡ entered (get bytes_eq table.old) name.now number q) }
{
    if table.contains_key(name) {
        return Ok(());
    }
    let key = name.clone(alloc)?;
    table.insert(key, number)?;
    Ok(())
}

/// For each name the number of the first item that has it, where the first of all has a number that
/// is given.
pub fn numbers_from<T: Named>(
    alloc: Global,
    first: u32,
    items: &[T],
) -> Result<IndexMap<Name, u32>, NoMemory>
    requires { first + length items.now < 2 ^ 32 }
    ensures { IfOk result (λ m. (q : List ℕ) → get bytes_eq m q
        ≡ position_from (λ x. is_named (T.own_name x) q) first items.now) }
{
    let mut table = IndexMap::new(alloc);
    for (number, item) in items.iter().enumerate() {
        if let Some(name) = item.own_name() {
            enter(alloc, &mut table, name, first + number as u32)?;
        }
    }
    Ok(table)
}

/// For each name the number of the first item that has it, counted from 0. 2^32 items or more find
/// no memory.
pub fn first_numbers<T: Named>(alloc: Global, items: &[T]) -> Result<IndexMap<Name, u32>, NoMemory>
    ensures { IfOk result (λ m. (q : List ℕ) → get bytes_eq m q
        ≡ position_from (λ x. is_named (T.own_name x) q) 0 items.now) }
{
    if items.len() > u32::MAX as usize {
        return Err(NoMemory);
    }
    numbers_from(alloc, 0, items)
}
