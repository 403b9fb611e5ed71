// Reasons, kept in two bytes each.
ghost use Rattle.std.specs.Prelude.{◌≡◌, IfSome};
ghost use Rattle.dsr_graph_theory.specs.Causes.{symbol_of};
ghost use Rattle.dsr_graph.specs.Graphs as graphs;
ghost use Rattle.dsr_meaning.specs.Typed.{AreTyped};
ghost use Rattle.dsr_update_theory.specs.Effects.{IsDeclared};

use dsr_graph_theory::Reason;
use dsr_ir::{Structures, Symbol};

/// Why a template breaks a constraint, if it does; there are at most 64 sets and relations, by
/// whose numbers it is told.
#[derive(Clone, Copy)]
pub enum Edge {
    None,
    SetGains(u8),
    SetLoses(u8),
    RelGains(u8),
    RelLoses(u8),
}

impl Edge {
    /// The edge with this reason.
    pub fn new(base: &Structures, reason: Option<Reason>) -> Edge
        requires typed { AreTyped base.now }
        requires declared { IfSome reason (λ r. IsDeclared base.now (symbol_of r)) }
        ensures { graphs.reason_of result ≡ reason }
    {
        match reason {
            None => Edge::None,
            Some(Reason::Gain(Symbol::Set(set))) => Edge::SetGains(set as u8),
            Some(Reason::Loss(Symbol::Set(set))) => Edge::SetLoses(set as u8),
            Some(Reason::Gain(Symbol::Rel(rel))) => Edge::RelGains(rel as u8),
            Some(Reason::Loss(Symbol::Rel(rel))) => Edge::RelLoses(rel as u8),
        }
    }

    /// Why the template breaks the constraint; none where it doesn't.
    pub fn reason(self) -> Option<Reason>
        ensures { result ≡ graphs.reason_of self }
    {
        match self {
            Edge::None => None,
            Edge::SetGains(set) => Some(Reason::Gain(Symbol::Set(set as u32))),
            Edge::SetLoses(set) => Some(Reason::Loss(Symbol::Set(set as u32))),
            Edge::RelGains(rel) => Some(Reason::Gain(Symbol::Rel(rel as u32))),
            Edge::RelLoses(rel) => Some(Reason::Loss(Symbol::Rel(rel as u32))),
        }
    }
}
