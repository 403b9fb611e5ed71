// Tables of names, from each name to the number of the first item that declares it.
ghost use Rattle.std.specs.Prelude.{◌≡◌, ◌<◌, ◌^◌, ℕ, List, [], Some, map, take, length, vec_len, codes, IfOk, OnOk};
ghost use Rattle.std.specs.List.{position_from};
ghost use Rattle.std.specs.Str.{bytes_eq};
ghost use Rattle.indexmap.specs.IndexMap.{get};
ghost use Rattle.dsr_tree.specs.Trees.{field_shape, structure_shape, tree_shape};
ghost use Rattle.dsr_language_theory.specs.Names.{has_name, has_fixed_name, field_number, fixed_in, before, is_head, all_ancestors, parent_number, names_of};
ghost use Rattle.dsr_names.specs.Tables.{is_named};
ghost use Rattle.dsr_struct.specs.Known.{told_by, HaveStructures, HaveSymbols};

use dsr_ir::{Name, NoMemory};
use dsr_names::{enter, first_numbers, line_of};
use dsr_tree::{Field, PlacedName, Structure, Tree};
use indexmap::IndexMap;
use std::alloc::Global;

// A `?` costs its proof what stays to be dropped there. So the tables are held and made in pairs,
// and those that stay alive at a `?` are dropped by a call of their own.

/// What the names of a tree stand for, by the numbers of the items that declare them.
pub struct TreeNames {
    pub structures: StructureTables,
    pub symbols: SymbolTables,
}

impl Drop for TreeNames {
    fn drop(self) {
        let TreeNames {
            structures: _,
            symbols: _,
        } = self;
    }
}

/// What the names of structures and of their fields stand for.
pub struct StructureTables {
    pub numbers: StructureNumbers,
    pub rows: StructureRows,
}

impl Drop for StructureTables {
    fn drop(self) {
        let StructureTables {
            numbers: _,
            rows: _,
        } = self;
    }
}

/// The structures by their names, and the fixed fields of `Head`.
pub struct StructureNumbers {
    pub structures: IndexMap<Name, u32>,
    pub fixed: IndexMap<Name, u32>,
}

impl Drop for StructureNumbers {
    fn drop(self) {
        let StructureNumbers {
            structures: _,
            fixed: _,
        } = self;
    }
}

/// A row for each structure.
#[derive(Drop)]
pub struct StructureRows {
    /// The fields that it declares itself.
    pub fields: Vec<IndexMap<Name, u32>>,
    /// Up to the first one over the limit its ancestors, the nearest first.
    pub ancestors: Vec<Vec<u32>>,
}

/// What the names of pools, sets and relations stand for.
#[derive(Drop)]
pub struct SymbolTables {
    pub pools: PoolTables,
    pub sets: SetTables,
}

/// The pools by their names.
pub struct PoolTables {
    pub pools: IndexMap<Name, u32>,
    /// The first supply of each pool.
    pub supplies: IndexMap<Name, u32>,
}

impl Drop for PoolTables {
    fn drop(self) {
        let PoolTables {
            pools: _,
            supplies: _,
        } = self;
    }
}

/// The sets and the relations by their names.
#[derive(Drop)]
pub struct SetTables {
    pub sets: IndexMap<Name, u32>,
    pub relations: IndexMap<Name, u32>,
}

/// Whether a name is the one of the structure of the record at byte 0.
pub fn is_head(name: &Name) -> bool
    ensures { result ≡ is_head name.now }
{
    name.bytes() == b"Head".as_slice()
}

/// `Head`, the name of that structure.
pub fn head_name(alloc: Global) -> Result<Name, NoMemory>
    ensures { IfOk result (λ name. name ≡ codes "Head") }
{
    Ok(Name::new(Vec::from_slice(alloc, b"Head")?))
}

// For each name the number of the first fixed field that has it, of fields whose numbers fit.
fn fixed_numbers(alloc: Global, fields: &[Field]) -> Result<IndexMap<Name, u32>, NoMemory>
    requires { length fields.now < 2 ^ 32 }
    ensures { IfOk result (λ m. (q : List ℕ) → get bytes_eq m q
        ≡ position_from (has_fixed_name q) 0 (map field_shape fields.now)) }
{
    let mut table = IndexMap::new(alloc);
    for (number, field) in fields.iter().enumerate() {
        if let Field::Named(field) = field {
            if field.fixed.is_some() {
                enter(alloc, &mut table, &field.name.name, number as u32)?;
            }
        }
    }
    Ok(table)
}

// For each name the number of the first fixed field that has it.
fn fixed_fields(alloc: Global, fields: &[Field]) -> Result<IndexMap<Name, u32>, NoMemory>
    ensures { IfOk result (λ m. (q : List ℕ) → get bytes_eq m q
        ≡ position_from (has_fixed_name q) 0 (map field_shape fields.now)) }
{
    if fields.len() > u32::MAX as usize {
        return Err(NoMemory);
    }
    fixed_numbers(alloc, fields)
}

// The fixed fields of the structure of a number, where there is one.
fn fixed_of(
    alloc: Global,
    tree: &Tree,
    structure: Option<u32>,
) -> Result<IndexMap<Name, u32>, NoMemory>
    ensures { IfOk result (λ m. (q : List ℕ) → get bytes_eq m q ≡ fixed_in (tree_shape tree.now) structure q) }
{
    if let Some(number) = structure {
        if let Some(structure) = tree.structures.items().get(number as usize) {
            return fixed_fields(alloc, structure.fields.items());
        }
    }
    Ok(IndexMap::new(alloc))
}

// The fixed fields that `Head` itself declares.
fn fixed_of_head(
    alloc: Global,
    tree: &Tree,
    structures: &IndexMap<Name, u32>,
) -> Result<IndexMap<Name, u32>, NoMemory>
    ensures { IfOk result (λ m. (q : List ℕ) → get bytes_eq m q
        ≡ fixed_in (tree_shape tree.now) (get bytes_eq structures.now (codes "Head")) q) }
{
    let head = head_name(alloc)?;
    fixed_of(alloc, tree, structures.get(&head).copied())
}

// For each structure the fields that it declares itself.
fn own_fields(alloc: Global, structures: &[Structure]) -> Result<Vec<IndexMap<Name, u32>>, NoMemory>
    ensures { IfOk result (λ tables. map (get bytes_eq) tables.items
        ≡ map (λ s. field_number (structure_shape s)) structures.now) }
{
    let mut tables = Vec::new(alloc);
    for structure in structures {
        let numbers = first_numbers(alloc, structure.fields.items())?;
        tables.push(numbers)?;
    }
    Ok(tables)
}

// A number that is less than another one.
fn before(number: usize, found: Option<u32>) -> Option<u32>
    ensures { result ≡ before number found }
{
    match found {
        Some(found) if (found as usize) < number => Some(found),
        _ => None,
    }
}

// The parent of a structure of this number, where it is one.
fn parent_of(
    structures: &IndexMap<Name, u32>,
    number: usize,
    parent: &Option<PlacedName>,
) -> Option<u32>
    ensures { result ≡ parent_number (get bytes_eq structures.now) number parent.now }
{
    match parent {
        Some(parent) if !is_head(&parent.name) => before(
            number,
            structures.get(&parent.name).copied(),
        ),
        _ => None,
    }
}

// The ancestors of each structure.
fn ancestors_of(
    alloc: Global,
    numbers: &IndexMap<Name, u32>,
    structures: &[Structure],
) -> Result<Vec<Vec<u32>>, NoMemory>
    ensures { IfOk result (λ lines. map (λ v. v.items) lines.items
        ≡ all_ancestors (get bytes_eq numbers.now) (map structure_shape structures.now)) }
{
    let mut lines = Vec::new(alloc);
    for structure in structures {
        let parent = parent_of(numbers, lines.len(), &structure.parent);
        let line = line_of(alloc, &lines, parent)?;
        lines.push(line)?;
    }
    Ok(lines)
}

fn pool_tables(alloc: Global, tree: &Tree) -> Result<PoolTables, NoMemory>
    ensures pools { IfOk result (λ t. (q : List ℕ) → get bytes_eq t.pools q
        ≡ position_from (λ p. is_named (Some p.name.name) q) 0 tree.now.pools) }
    ensures supplies { IfOk result (λ t. (q : List ℕ) → get bytes_eq t.supplies q
        ≡ position_from (λ f. is_named (Some f.pool.name) q) 0 tree.now.supplies) }
{
    let pools = first_numbers(alloc, tree.pools.items())?;
    let supplies = first_numbers(alloc, tree.supplies.items())?;
    Ok(PoolTables { pools, supplies })
}

fn set_tables(alloc: Global, tree: &Tree) -> Result<SetTables, NoMemory>
    ensures sets { IfOk result (λ t. (q : List ℕ) → get bytes_eq t.sets q
        ≡ position_from (λ s. is_named (Some s.name.name) q) 0 tree.now.sets) }
    ensures relations { IfOk result (λ t. (q : List ℕ) → get bytes_eq t.relations q
        ≡ position_from (λ r. is_named (Some r.name.name) q) 0 tree.now.relations) }
{
    let sets = first_numbers(alloc, tree.sets.items())?;
    let relations = first_numbers(alloc, tree.relations.items())?;
    Ok(SetTables { sets, relations })
}

fn symbol_tables(alloc: Global, tree: &Tree) -> Result<SymbolTables, NoMemory>
    ensures { IfOk result (HaveSymbols tree.now) }
{
    let pools = pool_tables(alloc, tree)?;
    let sets = set_tables(alloc, tree)?;
    Ok(SymbolTables { pools, sets })
}

fn structure_numbers(alloc: Global, tree: &Tree) -> Result<StructureNumbers, NoMemory>
    ensures structures { IfOk result (λ n. (q : List ℕ) → get bytes_eq n.structures q
        ≡ position_from (λ s. is_named (Some s.name.name) q) 0 tree.now.structures) }
    ensures fixed { IfOk result (λ n. (q : List ℕ) → get bytes_eq n.fixed q
        ≡ fixed_in (tree_shape tree.now) (get bytes_eq n.structures (codes "Head")) q) }
{
    let structures = first_numbers(alloc, tree.structures.items())?;
    let fixed = fixed_of_head(alloc, tree, &structures)?;
    Ok(StructureNumbers { structures, fixed })
}

fn structure_rows(
    alloc: Global,
    numbers: &IndexMap<Name, u32>,
    structures: &[Structure],
) -> Result<StructureRows, NoMemory>
    ensures fields { IfOk result (λ rows. map (get bytes_eq) rows.fields.items
        ≡ map (λ s. field_number (structure_shape s)) structures.now) }
    ensures ancestors { IfOk result (λ rows. map (λ v. v.items) rows.ancestors.items
        ≡ all_ancestors (get bytes_eq numbers.now) (map structure_shape (take 65 structures.now))) }
{
    let asked = &structures[..structures.len().min(65)];
    let ancestors = ancestors_of(alloc, numbers, asked)?;
    let fields = own_fields(alloc, structures)?;
    Ok(StructureRows { fields, ancestors })
}

fn structure_tables(alloc: Global, tree: &Tree) -> Result<StructureTables, NoMemory>
    ensures { IfOk result (HaveStructures tree.now) }
{
    let numbers = structure_numbers(alloc, tree)?;
    let rows = structure_rows(alloc, &numbers.structures, tree.structures.items())?;
    Ok(StructureTables { numbers, rows })
}

/// What the names of a tree stand for.
pub fn name_tables(alloc: Global, tree: &Tree) -> Result<TreeNames, NoMemory>
    ensures { IfOk result (λ tables. told_by tree.now tables ≡ names_of (tree_shape tree.now)) }
{
    let structures = structure_tables(alloc, tree)?;
    let symbols = symbol_tables(alloc, tree)?;
    Ok(TreeNames {
        structures,
        symbols,
    })
}
