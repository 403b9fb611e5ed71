// What the names of declared tables stand for.
ghost use Rattle.std.specs.Prelude.{◌≡◌, ◌≤◌, ℕ, List, [], ◌∷◌, map, length, slice_index_or, IfOk, All};
ghost use Rattle.std.specs.List.{position_from};
ghost use Rattle.std.specs.Option.{option_map_or};
ghost use Rattle.std.specs.Str.{bytes_eq};
ghost use Rattle.indexmap.specs.IndexMap.{get};
ghost use Rattle.dsr_meaning.specs.Lists.{each_at};
ghost use Rattle.dsr_meaning.specs.Typed.{ancestors, AreTyped};
ghost use Rattle.dsr_language_theory.specs.Known.{has_field_name, known_in};
ghost use Rattle.dsr_names.specs.Tables.{told_by};
ghost use Rattle.dsr_meaning.specs.Limits.{most_fields};

use crate::numbers::numbers_from;
use dsr_ir::{Name, NoMemory, Structure, Structures};
use indexmap::IndexMap;
use std::alloc::Global;

/// What the names of declared tables stand for, by the numbers of their entries.
pub struct TableNames {
    /// The pools, counted from 1.
    pub pools: IndexMap<Name, u32>,
    pub sets: IndexMap<Name, u32>,
    pub relations: IndexMap<Name, u32>,
    /// For each structure the fields that it declares itself.
    pub fields: Vec<IndexMap<Name, u32>>,
    /// For each structure its ancestors, the nearest first.
    pub ancestors: Vec<Vec<u32>>,
}

// Dropped by a call of its own, so that each caller has one step for it, and not one for each
// table.
impl Drop for TableNames {
    fn drop(self) {
        let TableNames {
            pools: _,
            sets: _,
            relations: _,
            fields: _,
            ancestors: _,
        } = self;
    }
}

// For each structure the fields that it declares itself.
fn own_fields(alloc: Global, structures: &[Structure]) -> Result<Vec<IndexMap<Name, u32>>, NoMemory>
    requires { All (λ s. length s.fields ≤ most_fields) structures.now }
    ensures { IfOk result (λ tables. map (get bytes_eq) tables.items
        ≡ map (λ s q. position_from (has_field_name q) 0 s.fields) structures.now) }
{
    let mut tables = Vec::new(alloc);
    for structure in structures {
        tables.push(numbers_from(alloc, 0, structure.fields.items())?)?;
    }
    Ok(tables)
}

/// A structure's parent and the parent's ancestors, by the lines of the structures before it.
pub fn line_of(
    alloc: Global,
    earlier: &[Vec<u32>],
    parent: Option<u32>,
) -> Result<Vec<u32>, NoMemory>
    ensures { IfOk result (λ line. line.items
        ≡ option_map_or (λ p. p ∷ slice_index_or (map (λ v. v.items) earlier.now) p []) parent []) }
{
    let Some(parent) = parent else {
        return Ok(Vec::new(alloc));
    };
    let mut line = Vec::new(alloc);
    line.push(parent)?;
    if let Some(above) = earlier.get(parent as usize) {
        line.extend_from_slice(above)?;
    }
    Ok(line)
}

// The ancestors of each structure.
fn lines_of(alloc: Global, structures: &[Structure]) -> Result<Vec<Vec<u32>>, NoMemory>
    ensures { IfOk result (λ lines. map (λ v. v.items) lines.items
        ≡ each_at (λ i _. ancestors structures.now i ∷ []) 0 structures.now) }
{
    let mut lines = Vec::new(alloc);
    for structure in structures {
        let line = line_of(alloc, &lines, structure.parent)?;
        lines.push(line)?;
    }
    Ok(lines)
}

// A `?` costs its proof what stays to be dropped there, so the tables are made in pairs.

// What each structure declares itself, and what it descends from.
#[derive(Drop)]
struct StructureRows {
    fields: Vec<IndexMap<Name, u32>>,
    ancestors: Vec<Vec<u32>>,
}

fn structure_rows(alloc: Global, structures: &[Structure]) -> Result<StructureRows, NoMemory>
    requires { All (λ s. length s.fields ≤ most_fields) structures.now }
    ensures fields { IfOk result
        (λ rows. map (get bytes_eq) rows.fields.items
        ≡ map (λ s q. position_from (has_field_name q) 0 s.fields) structures.now) }
    ensures ancestors { IfOk result
        (λ rows. map (λ v. v.items) rows.ancestors.items
        ≡ each_at (λ i _. ancestors structures.now i ∷ []) 0 structures.now) }
{
    let fields = own_fields(alloc, structures)?;
    let ancestors = lines_of(alloc, structures)?;
    Ok(StructureRows { fields, ancestors })
}

// The sets and the relations by their names.
#[derive(Drop)]
struct SymbolNumbers {
    sets: IndexMap<Name, u32>,
    relations: IndexMap<Name, u32>,
}

fn symbol_numbers(alloc: Global, base: &Structures) -> Result<SymbolNumbers, NoMemory>
    requires typed { AreTyped base.now }
    ensures sets { IfOk result
        (λ n. (q : List ℕ) → get bytes_eq n.sets q
        ≡ position_from (λ s. bytes_eq s.name q) 0 base.now.sets) }
    ensures relations { IfOk result
        (λ n. (q : List ℕ) → get bytes_eq n.relations q
        ≡ position_from (λ r. bytes_eq r.name q) 0 base.now.rels) }
{
    let sets = numbers_from(alloc, 0, base.sets.items())?;
    let relations = numbers_from(alloc, 0, base.rels.items())?;
    Ok(SymbolNumbers { sets, relations })
}

// These, and the pools by their names.
#[derive(Drop)]
struct NumberTables {
    pools: IndexMap<Name, u32>,
    symbols: SymbolNumbers,
}

fn number_tables(alloc: Global, base: &Structures) -> Result<NumberTables, NoMemory>
    requires typed { AreTyped base.now }
    ensures pools { IfOk result
        (λ t. (q : List ℕ) → get bytes_eq t.pools q
        ≡ position_from (λ p. bytes_eq p.name q) 1 base.now.pools) }
    ensures sets { IfOk result
        (λ t. (q : List ℕ) → get bytes_eq t.symbols.sets q
        ≡ position_from (λ s. bytes_eq s.name q) 0 base.now.sets) }
    ensures relations { IfOk result
        (λ t. (q : List ℕ) → get bytes_eq t.symbols.relations q
        ≡ position_from (λ r. bytes_eq r.name q) 0 base.now.rels) }
{
    let pools = numbers_from(alloc, 1, base.pools.items())?;
    let symbols = symbol_numbers(alloc, base)?;
    Ok(NumberTables { pools, symbols })
}

/// What the names of declared tables stand for.
pub fn name_tables(alloc: Global, base: &Structures) -> Result<TableNames, NoMemory>
    requires typed { AreTyped base.now }
    ensures { IfOk result (λ tables. told_by base.now tables ≡ known_in base.now) }
{
    let rows = structure_rows(alloc, base.structures.items())?;
    let numbers = number_tables(alloc, base)?;
    Ok(TableNames {
        pools: numbers.pools,
        sets: numbers.symbols.sets,
        relations: numbers.symbols.relations,
        fields: rows.fields,
        ancestors: rows.ancestors,
    })
}
