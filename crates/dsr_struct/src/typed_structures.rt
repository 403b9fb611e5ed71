// The tables of structures and pools.
ghost use Rattle.std.specs.Prelude.{◌≡◌, ◌∷◌, [], All, map, option_map, option_and_then, IfOk};
ghost use Rattle.std.specs.Str.{bytes_eq};
ghost use Rattle.indexmap.specs.IndexMap.{get};
ghost use Rattle.dsr_tree.specs.Trees.{expr_shape, named, named_shape, field_shape, structure_shape, pool_shape};
ghost use Rattle.dsr_language_theory.specs.Declarations.{width_faults};
ghost use Rattle.dsr_language_theory.specs.Names.{used_structure};
ghost use Rattle.dsr_language_theory.specs.Tables.{number_in, pool_in, typed_expr, typed_width, typed_content, typed_field, typed_structure, typed_pool, avoided_by, avoided};
ghost use Rattle.dsr_struct.specs.Known.{known_of, Fit, AllFit, HasLegalWidth, HasLegalWidths};

use crate::lookups::Names;
use crate::typed_exprs::{number_in, typed_expr, typed_maybe_expr};
use dsr_ir::{Expr, Field, Kind, Name, NoMemory, Pool, Seq, Structure, TryClone, Width};
use dsr_tree::{self, Content, Fresh, NamedField, PlacedName};
use indexmap::IndexMap;
use std::alloc::Global;

fn typed_width(width: dsr_tree::Width) -> Width
    requires legal { width_faults width ≡ [] }
    ensures { result ≡ typed_width width }
{
    match width {
        dsr_tree::Width::U8 { .. } => Width::U8,
        dsr_tree::Width::U16 { .. } => Width::U16,
        dsr_tree::Width::U32 { .. } => Width::U32,
        dsr_tree::Width::U64 { .. } => Width::U64,
        dsr_tree::Width::Bits { number, .. } => Width::Bits(number.number as u8),
    }
}

// A `?` costs its proof what stays to be dropped there, so a pool is made in parts.

// A pool's name, and the sets that its supply avoids.
#[derive(Drop)]
struct NameAndAvoided {
    name: Name,
    avoid: Option<Seq<u32>>,
}

// Where a pool's slots lie.
#[derive(Drop)]
struct SlotExprs {
    count: Expr,
    slot: Option<Expr>,
    start: Expr,
}

fn typed_slots(
    alloc: Global,
    fixed: &IndexMap<Name, u32>,
    pool: &dsr_tree::Pool,
) -> Result<SlotExprs, NoMemory>
    requires { Fit (get bytes_eq fixed.now) }
    ensures count { IfOk result (λ s. s.count
        ≡ typed_expr (get bytes_eq fixed.now) (expr_shape pool.now.count)) }
    ensures slot { IfOk result (λ s. s.slot
        ≡ option_map (typed_expr (get bytes_eq fixed.now)) (option_map expr_shape pool.now.slot)) }
    ensures start { IfOk result (λ s. s.start
        ≡ typed_expr (get bytes_eq fixed.now) (expr_shape pool.now.start)) }
{
    let count = typed_expr(alloc, fixed, &pool.count)?;
    let slot = typed_maybe_expr(alloc, fixed, &pool.slot)?;
    let start = typed_expr(alloc, fixed, &pool.start)?;
    Ok(SlotExprs { count, slot, start })
}

// The codes by which a pool's slots are referred to.
#[derive(Drop)]
struct CodeExprs {
    code: Expr,
    step: Expr,
    none: Expr,
}

fn typed_codes(
    alloc: Global,
    fixed: &IndexMap<Name, u32>,
    pool: &dsr_tree::Pool,
) -> Result<CodeExprs, NoMemory>
    requires { Fit (get bytes_eq fixed.now) }
    ensures code { IfOk result (λ c. c.code
        ≡ typed_expr (get bytes_eq fixed.now) (expr_shape pool.now.code)) }
    ensures step { IfOk result (λ c. c.step
        ≡ typed_expr (get bytes_eq fixed.now) (expr_shape pool.now.step)) }
    ensures none { IfOk result (λ c. c.none
        ≡ typed_expr (get bytes_eq fixed.now) (expr_shape pool.now.none)) }
{
    let code = typed_expr(alloc, fixed, &pool.code)?;
    let step = typed_expr(alloc, fixed, &pool.step)?;
    let none = typed_expr(alloc, fixed, &pool.none)?;
    Ok(CodeExprs { code, step, none })
}

impl Names<'_> {
    /// The number of a pool that a name stands for, counted from 1.
    pub fn pool_in(&self, name: &PlacedName) -> u32
        requires fit { AllFit (known_of self.now) }
        ensures { result ≡ pool_in (known_of self.now) name.now }
    {
        number_in(&self.tables.symbols.pools.pools, name) + 1
    }

    /// The structure of a name as a parent, a pool's structure or a set's.
    pub fn structure_in(&self, name: &PlacedName) -> u32
        requires fit { AllFit (known_of self.now) }
        ensures { result ≡ number_in (used_structure (known_of self.now)) name.now }
    {
        self.used_structure(&name.name).unwrap_or(0)
    }

    fn typed_content(&self, content: &Option<Content>) -> Kind
        requires fit { AllFit (known_of self.now) }
        ensures { result ≡ typed_content (known_of self.now) content.now }
    {
        match content {
            None => Kind::Number { init: 0 },
            Some(Content::Init { number, .. }) => Kind::Number {
                init: number.number,
            },
            Some(Content::Refers { pool, .. }) => Kind::Refers {
                pool: self.pool_in(pool),
            },
        }
    }

    fn typed_named_field(&self, alloc: Global, field: &NamedField) -> Result<Field, NoMemory>
        requires fit { AllFit (known_of self.now) }
        requires legal { width_faults field.now.width ≡ [] }
        ensures { IfOk result (λ f. f ≡ typed_field (known_of self.now) (named (named_shape field.now))) }
    {
        let width = typed_width(field.width);
        let kind = self.typed_content(&field.content);
        let name = field.name.name.clone(alloc)?;
        let len = typed_maybe_expr(alloc, &self.tables.structures.numbers.fixed, &field.length)?;
        Ok(Field {
            name,
            fixed: field.fixed.is_some(),
            width,
            len,
            kind,
        })
    }

    // A gap of n bytes is an array of n bytes without a name.
    fn typed_field(&self, alloc: Global, field: &dsr_tree::Field) -> Result<Field, NoMemory>
        requires fit { AllFit (known_of self.now) }
        requires legal { HasLegalWidth (field_shape field.now) }
        ensures { IfOk result (λ f. f ≡ typed_field (known_of self.now) (field_shape field.now)) }
    {
        match field {
            dsr_tree::Field::Named(field) => self.typed_named_field(alloc, field),
            dsr_tree::Field::Skip { length, .. } => {
                let len = typed_expr(alloc, &self.tables.structures.numbers.fixed, length)?;
                Ok(Field {
                    name: Name::new(Vec::new(alloc)),
                    fixed: false,
                    width: Width::U8,
                    len: Some(len),
                    kind: Kind::Gap,
                })
            }
        }
    }

    fn typed_fields(
        &self,
        alloc: Global,
        fields: &[dsr_tree::Field],
    ) -> Result<Seq<Field>, NoMemory>
        requires fit { AllFit (known_of self.now) }
        requires legal { All HasLegalWidth (map field_shape fields.now) }
        ensures { IfOk result (λ fs. fs ≡ map (typed_field (known_of self.now)) (map field_shape fields.now)) }
    {
        let mut typed = Vec::new(alloc);
        for field in fields {
            let entry = self.typed_field(alloc, field)?;
            typed.push(entry)?;
        }
        Ok(Seq::new(typed))
    }

    fn typed_parent(&self, parent: &Option<PlacedName>) -> Option<u32>
        requires fit { AllFit (known_of self.now) }
        ensures { result ≡ option_map (number_in (used_structure (known_of self.now))) parent.now }
    {
        match parent {
            Some(parent) => Some(self.structure_in(parent)),
            None => None,
        }
    }

    fn typed_structure(
        &self,
        alloc: Global,
        structure: &dsr_tree::Structure,
    ) -> Result<Structure, NoMemory>
        requires fit { AllFit (known_of self.now) }
        requires legal { HasLegalWidths (structure_shape structure.now) }
        ensures { IfOk result (λ s. s ≡ typed_structure (known_of self.now) (structure_shape structure.now)) }
    {
        let parent = self.typed_parent(&structure.parent);
        let name = structure.name.name.clone(alloc)?;
        let fields = self.typed_fields(alloc, structure.fields.items())?;
        Ok(Structure {
            name,
            parent,
            fields,
        })
    }

    /// The table of structures.
    pub fn typed_structures(&self, alloc: Global) -> Result<Seq<Structure>, NoMemory>
        requires fit { AllFit (known_of self.now) }
        requires legal { All HasLegalWidths (known_of self.now).tree.structures }
        ensures { IfOk result (λ ss. ss
            ≡ map (typed_structure (known_of self.now)) (known_of self.now).tree.structures) }
    {
        let mut typed = Vec::new(alloc);
        for structure in self.tree.structures.items() {
            let entry = self.typed_structure(alloc, structure)?;
            typed.push(entry)?;
        }
        Ok(Seq::new(typed))
    }

    // The numbers of the sets that a supply avoids.
    fn avoided_by(&self, alloc: Global, supply: &Fresh) -> Result<Seq<u32>, NoMemory>
        requires fit { AllFit (known_of self.now) }
        ensures { IfOk result (λ ns. ns ≡ avoided_by (known_of self.now) supply.now) }
    {
        let sets = &self.tables.symbols.sets.sets;
        let mut numbers = Vec::new(alloc);
        numbers.push(number_in(sets, &supply.first))?;
        for set in supply.rest.items() {
            numbers.push(number_in(sets, set))?;
        }
        Ok(Seq::new(numbers))
    }

    // The numbers of the sets that the supply of a pool avoids, where it has one.
    fn avoided(&self, alloc: Global, pool: &Name) -> Result<Option<Seq<u32>>, NoMemory>
        requires fit { AllFit (known_of self.now) }
        ensures { IfOk result (λ ns. ns ≡ avoided (known_of self.now) pool.now) }
    {
        if let Some(number) = self.supply(pool) {
            if let Some(supply) = self.tree.supplies.items().get(number as usize) {
                return Ok(Some(self.avoided_by(alloc, supply)?));
            }
        }
        Ok(None)
    }

    fn name_and_avoided(&self, alloc: Global, pool: &Name) -> Result<NameAndAvoided, NoMemory>
        requires fit { AllFit (known_of self.now) }
        ensures name { IfOk result (λ n. n.name ≡ pool.now) }
        ensures avoid { IfOk result (λ n. n.avoid ≡ avoided (known_of self.now) pool.now) }
    {
        let name = pool.clone(alloc)?;
        let avoid = self.avoided(alloc, pool)?;
        Ok(NameAndAvoided { name, avoid })
    }

    fn typed_pool(&self, alloc: Global, pool: &dsr_tree::Pool) -> Result<Pool, NoMemory>
        requires fit { AllFit (known_of self.now) }
        ensures { IfOk result (λ p. p ≡ typed_pool (known_of self.now) (pool_shape pool.now)) }
    {
        let structure = self.structure_in(&pool.structure);
        let named = self.name_and_avoided(alloc, &pool.name.name)?;
        let slots = typed_slots(alloc, &self.tables.structures.numbers.fixed, pool)?;
        let codes = typed_codes(alloc, &self.tables.structures.numbers.fixed, pool)?;
        let NameAndAvoided { name, avoid } = named;
        let SlotExprs { count, slot, start } = slots;
        let CodeExprs { code, step, none } = codes;
        Ok(Pool {
            name,
            structure,
            count,
            slot,
            start,
            code,
            step,
            none,
            avoid,
        })
    }

    /// The table of pools.
    pub fn typed_pools(&self, alloc: Global) -> Result<Seq<Pool>, NoMemory>
        requires fit { AllFit (known_of self.now) }
        ensures { IfOk result (λ ps. ps ≡ map (typed_pool (known_of self.now)) (known_of self.now).tree.pools) }
    {
        let mut typed = Vec::new(alloc);
        for pool in self.tree.pools.items() {
            let entry = self.typed_pool(alloc, pool)?;
            typed.push(entry)?;
        }
        Ok(Seq::new(typed))
    }
}
