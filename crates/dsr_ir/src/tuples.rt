// Records of an image, and the facts and bindings that are made of them.

/// A record of an image. Pool 0 has one record, the head at slot 0; pool p is the one declared
/// at place p, counted from 1, and its slots count from 0.
#[derive(Clone, Copy, PartialEq, Eq, PartialOrd, Ord)]
pub struct Element {
    pub pool: u32,
    pub slot: u32,
}

/// What a constraint's variables are bound to, as its quantifier asks.
#[derive(Clone, Copy, PartialEq, Eq, PartialOrd, Ord)]
pub enum Binding {
    /// No variable.
    Once,
    /// The member of a set.
    Each(Element),
    /// The source and the target of a pair of a relation.
    Pair(Element, Element),
}

/// The second part of a pair of a relation.
#[derive(Clone, Copy, PartialEq, Eq, PartialOrd, Ord)]
pub enum Target {
    Elem(Element),
    Num(u64),
}

/// A fact of the model, with the number of its set or relation.
#[derive(Clone, Copy, PartialEq, Eq, PartialOrd, Ord)]
pub enum Fact {
    /// The record is in the set.
    Member(u32, Element),
    /// The record and the target are in the relation.
    Pair(u32, Element, Target),
}

/// A rule by its number, a record of its premise's pool, and an entry of its index (0 without
/// one).
#[derive(Clone, Copy, PartialEq, Eq, PartialOrd, Ord)]
pub struct Instance {
    pub rule: u32,
    pub elem: Element,
    pub index: u64,
}
