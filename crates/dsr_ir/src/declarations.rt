// What a specification declares, with every name resolved to a number.
use crate::{Constraint, Expr, Name, Rule, Seq};

/// The order of a number's bytes.
#[derive(Clone, Copy, PartialEq, Eq)]
pub enum Order {
    /// The least byte first.
    Little,
    /// The greatest byte first.
    Big,
}

/// The width of a field's entry; `Bits` holds a number of bits from 1 to 32.
#[derive(Clone, Copy, PartialEq, Eq)]
pub enum Width {
    U8,
    U16,
    U32,
    U64,
    Bits(u8),
}

/// What a field's entry means.
#[derive(Clone, Copy)]
pub enum Kind {
    /// A number, with the value that a reset gives it.
    Number { init: u64 },
    /// A reference to a pool, counted from 1.
    Refers { pool: u32 },
    /// Bytes that are left out.
    Gap,
}

/// A field of a structure; a `fixed` one is never written. A gap of n bytes is a `Gap` of `U8` with
/// the length n.
pub struct Field {
    pub name: Name,
    pub fixed: bool,
    pub width: Width,
    /// The number of entries of an array; none for a scalar.
    pub len: Option<Expr>,
    pub kind: Kind,
}

impl Drop for Field {
    fn drop(self) {
        let Field {
            name: _,
            fixed: _,
            width: _,
            len: _,
            kind: _,
        } = self;
    }
}

/// A structure with the fields that it declares itself.
pub struct Structure {
    pub name: Name,
    /// The number of the structure that this one extends.
    pub parent: Option<u32>,
    pub fields: Seq<Field>,
}

impl Drop for Structure {
    fn drop(self) {
        let Structure {
            name: _,
            parent: _,
            fields: _,
        } = self;
    }
}

/// A pool of records of one structure.
pub struct Pool {
    pub name: Name,
    /// The number of the structure of its slots.
    pub structure: u32,
    /// The number of slots.
    pub count: Expr,
    /// The bytes of a slot; without it a slot has the structure's size.
    pub slot: Option<Expr>,
    /// The first byte, counted from the start of the image.
    pub start: Expr,
    /// The code of slot 0.
    pub code: Expr,
    /// The step from one slot's code to the next.
    pub step: Expr,
    /// The code of no slot.
    pub none: Expr,
    /// The numbers of the sets that a fresh record avoids; none where the pool has no supply.
    pub avoid: Option<Seq<u32>>,
}

impl Drop for Pool {
    fn drop(self) {
        let Pool {
            name: _,
            structure: _,
            count: _,
            slot: _,
            start: _,
            code: _,
            step: _,
            none: _,
            avoid: _,
        } = self;
    }
}

/// A set of slots of a pool.
pub struct SetDecl {
    pub name: Name,
    /// The pool, counted from 1.
    pub pool: u32,
    /// The number of the structure by which the slots' fields are read.
    pub structure: u32,
    /// The number of the set of which this one is the complement.
    pub except: Option<u32>,
}

impl Drop for SetDecl {
    fn drop(self) {
        let SetDecl {
            name: _,
            pool: _,
            structure: _,
            except: _,
        } = self;
    }
}

/// A relation between the records of a pool or the head and those of a pool, or numbers.
pub struct Rel {
    pub name: Name,
    /// The pool of the sources; 0 is the head.
    pub source: u32,
    /// The pool of the targets; none where they are numbers.
    pub target: Option<u32>,
}

impl Drop for Rel {
    fn drop(self) {
        let Rel {
            name: _,
            source: _,
            target: _,
        } = self;
    }
}

/// A field, by the number of the structure that declares it and its place there.
#[derive(Clone, Copy, PartialEq, Eq)]
pub struct FieldRef {
    pub structure: u32,
    pub field: u32,
}

/// Structures, pools, sets and relations in order of declaration. The number of one is its place
/// here, counted from 0; only pools are counted from 1, since 0 is the head.
pub struct Structures {
    /// 1 or 2.
    pub version: u8,
    pub order: Order,
    /// The number of the structure `Head`.
    pub head: u32,
    pub structures: Seq<Structure>,
    pub pools: Seq<Pool>,
    pub sets: Seq<SetDecl>,
    pub rels: Seq<Rel>,
}

impl Drop for Structures {
    fn drop(self) {
        let Structures {
            version: _,
            order: _,
            head: _,
            structures: _,
            pools: _,
            sets: _,
            rels: _,
        } = self;
    }
}

/// A typed specification, with rules and constraints in order of declaration.
pub struct Spec {
    pub base: Structures,
    pub rules: Seq<Rule>,
    pub constraints: Seq<Constraint>,
}

impl Drop for Spec {
    fn drop(self) {
        let Spec {
            base: _,
            rules: _,
            constraints: _,
        } = self;
    }
}
