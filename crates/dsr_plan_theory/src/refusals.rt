// What stands in the way of a plan.
use dsr_graph_theory::Reason;
use dsr_ir::Seq;

/// A template that would make a literal true, falsifies nothing, and breaks a member of a stuck
/// set.
#[derive(Drop)]
pub struct StuckWay {
    /// The number of the conjunction, counted from 0.
    pub conj: u32,
    /// The number of the literal in its conjunction, counted from 0.
    pub literal: u32,
    /// The number of the template among those that are listed for the literal, counted from 1.
    pub way: u32,
    /// The first member that it breaks.
    pub breaks: u32,
    /// The first reason for which it breaks that member.
    pub reason: Reason,
}

/// A member of a stuck set, with what may keep it from being repaired before all other members.
#[derive(Drop)]
pub struct StuckMember {
    pub constraint: u32,
    /// The first member that relies on it.
    pub relied_by: Option<u32>,
    /// Which templates break members, in order of conjunctions, literals and templates.
    pub ways: Seq<StuckWay>,
}

/// Where a stuck set ends.
#[derive(Drop)]
pub enum StuckEnd {
    /// Members that wait for each other: each waits for the one behind it, and the last is the
    /// first once more.
    Cycle(Seq<u32>),
    /// The first member that couldn't be repaired even if its templates broke nothing.
    Unrepairable(u32),
}

/// The largest set of constraints none of which can be repaired before all others of the set.
#[derive(Drop)]
pub struct StuckSet {
    /// In order of declaration.
    pub members: Seq<StuckMember>,
    pub end: StuckEnd,
}
