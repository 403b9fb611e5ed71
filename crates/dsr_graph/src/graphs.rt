// The graph as it is kept.
use crate::kinds::Kinds;
use crate::listings::Listing;
use dsr_ir::Seq;

/// A constraint, with what is listed for its literals.
pub struct Node {
    pub kinds: Kinds,
    /// What is listed for each kind of the constraint's literals.
    pub listings: Vec<Listing>,
    /// The constraints on which this one relies.
    pub from: Seq<u32>,
}

impl Drop for Node {
    fn drop(self) {
        let Node {
            kinds: _,
            listings: _,
            from: _,
        } = self;
    }
}

/// The repair dependence graph of a specification: what may come of each template that is listed
/// for a literal, and which constraint relies on which. It keeps no effects: what comes of a
/// template is told once, while it is judged, as a row with an entry for each constraint and for
/// each kind of its own literals.
pub struct Graph {
    pub(crate) nodes: Vec<Node>,
}

impl Drop for Graph {
    fn drop(self) {
        let Graph { nodes: _ } = self;
    }
}
