// What an update may change, whatever the image. The types stand beside the definitions, so that
// code and definitions speak of the same.
use dsr_ir::Seq;

/// The direction of a change: whether something is gained or lost.
#[derive(Clone, Copy, PartialEq, Eq)]
pub enum Direction {
    Gain,
    Loss,
}

/// Of which record a gained or lost member, or the source of a pair, may be.
#[derive(Clone, Copy, PartialEq, Eq)]
pub enum Tag {
    /// The record that the update writes.
    Written,
    /// The slot that the index of the written entry names.
    Entry,
    /// The fresh record.
    Fresh,
    /// Any record.
    Any,
}

/// The records of which something gained or lost may be; nothing is gained or lost where all are
/// false.
#[derive(Clone, Copy, PartialEq, Eq)]
pub struct Tags {
    pub written: bool,
    pub entry: bool,
    pub fresh: bool,
    pub any: bool,
}

/// What an update may change: for each set, and then for each relation, in order of declaration,
/// of which records it may gain and lose.
#[derive(Drop)]
pub struct Effect {
    pub gains: Seq<Tags>,
    pub losses: Seq<Tags>,
}
