// The numbers of a layout as far as they are known: what a refusal is told with.
use dsr_ir::{Cell, Expr, ExprNode, Field, NoMemory, Order, Pool, Spec, Structure, Width};
use dsr_layout::is_bytewise;
use dsr_meaning::value_of_cell;
use dsr_schema::width_bits;
use std::alloc::Global;

// The most bytes of an image.
const MOST: u64 = 67_108_864;

/// The values of the fixed fields, and the ends of the structures in bits, where they are known.
#[derive(Drop)]
pub struct Extents {
    fixed: Vec<Option<u64>>,
    ends: Vec<Option<u64>>,
}

/// The numbers of a pool, where they are known.
#[derive(Clone, Copy)]
pub struct PoolExtent {
    pub start: Option<u64>,
    pub slot: Option<u64>,
    pub count: Option<u64>,
    pub code: Option<u64>,
    pub step: Option<u64>,
    pub none: Option<u64>,
}

// The number at a place, where it is known.
fn known_at(numbers: &[Option<u64>], place: usize) -> Option<u64> {
    match numbers.get(place) {
        Some(number) => *number,
        None => None,
    }
}

fn sum(left: Option<u64>, right: Option<u64>) -> Option<u64> {
    match (left, right) {
        (Some(left), Some(right)) => left.checked_add(right),
        _ => None,
    }
}

fn difference(left: Option<u64>, right: Option<u64>) -> Option<u64> {
    match (left, right) {
        (Some(left), Some(right)) => left.checked_sub(right),
        _ => None,
    }
}

fn product(left: Option<u64>, right: Option<u64>) -> Option<u64> {
    match (left, right) {
        (Some(left), Some(right)) => left.checked_mul(right),
        _ => None,
    }
}

fn quotient(left: Option<u64>, right: Option<u64>) -> Option<u64> {
    match (left, right) {
        (Some(left), Some(right)) => left.checked_div(right),
        _ => None,
    }
}

fn node_value(fixed: &[Option<u64>], node: &ExprNode) -> Option<u64> {
    match node {
        ExprNode::Num(value) => Some(*value),
        ExprNode::Fixed(field) => known_at(fixed, *field as usize),
        ExprNode::Sum(left, right) => sum(node_value(fixed, left), node_value(fixed, right)),
        ExprNode::Less(left, right) => difference(
            node_value(fixed, left),
            node_value(fixed, right),
        ),
        ExprNode::Times(left, right) => product(node_value(fixed, left), node_value(fixed, right)),
        ExprNode::Over(left, right) => quotient(node_value(fixed, left), node_value(fixed, right)),
    }
}

fn value_of(fixed: &[Option<u64>], expr: &Expr) -> Option<u64> {
    node_value(fixed, expr.node())
}

// The first byte boundary at a bit or behind it.
fn up_to_byte(bit: u64) -> Option<u64> {
    bit.div_ceil(8).checked_mul(8)
}

// The bit behind a field that begins at a bit.
fn bit_behind(fixed: &[Option<u64>], bit: u64, field: &Field) -> Option<u64> {
    let bits = width_bits(field.width);
    match &field.len {
        None => bit.checked_add(bits),
        Some(length) => {
            let count = value_of(fixed, length)?;
            up_to_byte(bit.checked_add(count.checked_mul(bits)?)?)
        }
    }
}

// The bit behind the own fields of a structure that begin at a bit.
fn end_behind(fixed: &[Option<u64>], start: u64, structure: &Structure) -> Option<u64> {
    let mut bit = start;
    for field in structure.fields.items() {
        bit = bit_behind(fixed, bit, field)?;
    }
    up_to_byte(bit)
}

// The end of the structure of this number, of those that are known.
fn known_end(ends: &[Option<u64>], number: Option<u32>) -> Option<u64> {
    match number {
        None => Some(0),
        Some(number) => known_at(ends, number as usize),
    }
}

// Where the structures end, in bits.
fn ends_of(
    alloc: Global,
    fixed: &[Option<u64>],
    structures: &[Structure],
) -> Result<Vec<Option<u64>>, NoMemory> {
    let mut ends = Vec::new(alloc);
    for structure in structures {
        let end = match known_end(&ends, structure.parent) {
            Some(start) => end_behind(fixed, start, structure),
            None => None,
        };
        ends.push(end)?;
    }
    Ok(ends)
}

// The value of a scalar that begins at a bit; none where the image ends before.
fn value_at(bytes: &[u8], order: Order, bit: u64, width: Width) -> Option<u64> {
    let length = bytes.len() as u64;
    let bits = width_bits(width);
    if length > MOST || bits > 64 {
        return None;
    }
    let end = bit.checked_add(bits)?;
    if end > 8 * length {
        return None;
    }
    let cell = Cell {
        bit,
        width: bits as u8,
        bytewise: is_bytewise(width),
        order,
    };
    Some(value_of_cell(bytes, &cell))
}

// The values of the fixed fields of the head, by the numbers of its fields.
fn fixed_of(
    alloc: Global,
    spec: &Spec,
    head: &Structure,
    start: u64,
    bytes: &[u8],
) -> Result<Vec<Option<u64>>, NoMemory> {
    let mut values = Vec::new(alloc);
    let mut bit = Some(start);
    for field in head.fields.items() {
        let mut value = None;
        if let Some(place) = bit
            && field.fixed
        {
            value = value_at(bytes, spec.base.order, place, field.width);
        }
        bit = match bit {
            Some(place) => bit_behind(&[], place, field),
            None => None,
        };
        values.push(value)?;
    }
    Ok(values)
}

/// The numbers of a specification on an image, as far as they are known.
pub fn extents_of(alloc: Global, spec: &Spec, bytes: &[u8]) -> Result<Extents, NoMemory> {
    let structures = spec.base.structures.items();
    let mut fixed = Vec::new(alloc);
    if let Some(head) = structures.get(spec.base.head as usize) {
        let plain = ends_of(alloc, &[], structures)?;
        let start = known_end(&plain, head.parent).unwrap_or(0);
        fixed = fixed_of(alloc, spec, head, start, bytes)?;
    }
    let ends = ends_of(alloc, &fixed, structures)?;
    Ok(Extents { fixed, ends })
}

impl Extents {
    /// The bytes of a structure.
    pub fn bytes_of(&self, structure: u32) -> Option<u64> {
        Some(known_at(&self.ends, structure as usize)? / 8)
    }

    /// The value of a field of the head, by its number there, if it is a fixed one.
    pub fn fixed_value(&self, number: usize) -> Option<u64> {
        known_at(&self.fixed, number)
    }

    /// The numbers of a pool.
    pub fn pool(&self, pool: &Pool) -> PoolExtent {
        PoolExtent {
            start: value_of(&self.fixed, &pool.start),
            slot: match &pool.slot {
                Some(slot) => value_of(&self.fixed, slot),
                None => self.bytes_of(pool.structure),
            },
            count: value_of(&self.fixed, &pool.count),
            code: value_of(&self.fixed, &pool.code),
            step: value_of(&self.fixed, &pool.step),
            none: value_of(&self.fixed, &pool.none),
        }
    }
}

impl PoolExtent {
    /// The byte behind the last slot.
    pub fn end(&self) -> Option<u64> {
        sum(self.start, product(self.count, self.slot))
    }

    /// The code of the last slot.
    pub fn last_code(&self) -> Option<u64> {
        let steps = difference(self.count, Some(1));
        sum(self.code, product(steps, self.step))
    }
}
