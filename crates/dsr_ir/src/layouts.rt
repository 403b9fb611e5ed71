// The layout of an image, as numbers.
use crate::{FieldRef, Order, Seq, Width};

/// The numbers of a pool: its first byte, the bytes of a slot, the number of slots, the code of
/// slot 0, the step from one slot's code to the next, and the code of no slot.
#[derive(Clone, Copy)]
pub struct PoolNumbers {
    pub start: u64,
    pub slot: u64,
    pub count: u64,
    pub code: u64,
    pub step: u64,
    pub none: u64,
}

/// Where a field begins, counted in bits from the start of its record; the width of an entry;
/// and the number of entries of an array.
#[derive(Clone, Copy)]
pub struct FieldPlace {
    pub bit: u64,
    pub width: Width,
    pub length: Option<u64>,
}

/// What a specification's expressions amount to on an image: its length in bytes, the order of a
/// number's bytes, the numbers of the pools in order of declaration, and the places of each
/// structure's own fields.
pub struct Layout {
    pub length: u64,
    pub order: Order,
    pub pools: Seq<PoolNumbers>,
    pub fields: Seq<Seq<FieldPlace>>,
}

impl Drop for Layout {
    fn drop(self) {
        let Layout {
            length: _,
            order: _,
            pools: _,
            fields: _,
        } = self;
    }
}

impl Layout {
    ghost use Rattle.std.specs.Prelude.{◌≡◌, IsSome, IsSomeAnd};
    ghost use Rattle.dsr_ir.specs.Layouts.{pool_numbers, field_place};

    /// The bytes of the image that the layout covers.
    pub fn length(&self) -> u64
        ensures { result ≡ self.now.length }
    {
        self.length
    }

    /// The order of a number's bytes.
    pub fn order(&self) -> Order
        ensures { result ≡ self.now.order }
    {
        self.order
    }

    /// The first byte of a declared pool, counted from the start of the image.
    pub fn start(&self, pool: u32) -> u64
        requires { IsSome (pool_numbers self.now pool) }
        ensures { IsSomeAnd (pool_numbers self.now pool) (λ n. result ≡ n.start) }
    {
        self.pool(pool).start
    }

    /// The bytes of a slot of a declared pool.
    pub fn slot(&self, pool: u32) -> u64
        requires { IsSome (pool_numbers self.now pool) }
        ensures { IsSomeAnd (pool_numbers self.now pool) (λ n. result ≡ n.slot) }
    {
        self.pool(pool).slot
    }

    /// The number of slots of a declared pool.
    pub fn count(&self, pool: u32) -> u64
        requires { IsSome (pool_numbers self.now pool) }
        ensures { IsSomeAnd (pool_numbers self.now pool) (λ n. result ≡ n.count) }
    {
        self.pool(pool).count
    }

    /// The code of slot 0 of a declared pool.
    pub fn code(&self, pool: u32) -> u64
        requires { IsSome (pool_numbers self.now pool) }
        ensures { IsSomeAnd (pool_numbers self.now pool) (λ n. result ≡ n.code) }
    {
        self.pool(pool).code
    }

    /// The step from one slot's code to the next in a declared pool.
    pub fn step(&self, pool: u32) -> u64
        requires { IsSome (pool_numbers self.now pool) }
        ensures { IsSomeAnd (pool_numbers self.now pool) (λ n. result ≡ n.step) }
    {
        self.pool(pool).step
    }

    /// The code of no slot of a declared pool.
    pub fn none(&self, pool: u32) -> u64
        requires { IsSome (pool_numbers self.now pool) }
        ensures { IsSomeAnd (pool_numbers self.now pool) (λ n. result ≡ n.none) }
    {
        self.pool(pool).none
    }

    /// Where a field begins, counted in bits from the start of its record.
    pub fn bit_offset(&self, field: FieldRef) -> u64
        requires { IsSome (field_place self.now field) }
        ensures { IsSomeAnd (field_place self.now field) (λ place. result ≡ place.bit) }
    {
        self.field(field).bit
    }

    /// The width of a field's entry.
    pub fn width(&self, field: FieldRef) -> Width
        requires { IsSome (field_place self.now field) }
        ensures { IsSomeAnd (field_place self.now field) (λ place. result ≡ place.width) }
    {
        self.field(field).width
    }

    /// The number of a field's entries; none where it is no array.
    pub fn array_length(&self, field: FieldRef) -> Option<u64>
        requires { IsSome (field_place self.now field) }
        ensures { IsSomeAnd (field_place self.now field) (λ place. result ≡ place.length) }
    {
        self.field(field).length
    }

    fn pool(&self, pool: u32) -> PoolNumbers
        requires { IsSome (pool_numbers self.now pool) }
        ensures { pool_numbers self.now pool ≡ Some result }
    {
        self.pools.items()[pool as usize - 1]
    }

    fn field(&self, field: FieldRef) -> FieldPlace
        requires { IsSome (field_place self.now field) }
        ensures { field_place self.now field ≡ Some result }
    {
        self.fields.items()[field.structure as usize].items()[field.field as usize]
    }
}

/// A range of bits of an image. `bit` counts from the image's first bit, bit 0 of a byte being
/// its least; a cell that is bytewise is read byte by byte in its order.
#[derive(Clone, Copy)]
pub struct Cell {
    pub bit: u64,
    pub width: u8,
    pub bytewise: bool,
    pub order: Order,
}
