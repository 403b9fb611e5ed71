// What is listed for a kind of literals, and what may come of each template.
ghost use Rattle.std.specs.Prelude.{◌≡◌, ◌<◌, ◌&&◌, All, IfOk, IfSome, Some, length, nat_eq, slice_get};
ghost use Rattle.dsr_graph_theory.specs.Breaks.{Breaks};
ghost use Rattle.dsr_graph_theory.specs.Causes.{is_once, symbol_of};
ghost use Rattle.dsr_graph.specs.Told.{TellsExcuses};
ghost use Rattle.dsr_graph_theory.specs.Owners.{Owner as OwnerOf};
ghost use Rattle.dsr_compensate.specs.Taking.{IsJudged, templates_of};
ghost use Rattle.dsr_graph.specs.Asking.{IsAskedOf};
ghost use Rattle.dsr_graph.specs.Graphs.{AreBroken, AreFalsified, AreListingsOf, AreOutcomesOf, IsListingOf, IsOutcomeOf, owner_at};
ghost use Rattle.dsr_graph.specs.Kinds.{IsFirstIn};
ghost use Rattle.dsr_ir.specs.declared.constraints.Constraint.{Constraint as ConstraintOf};
ghost use Rattle.dsr_compensate.specs.Owned.{owner_of};
ghost use Rattle.dsr_update_theory.specs.Effects.{IsDeclared};

use crate::edges::Edge;
use crate::excuses::Excuses;
use crate::kinds::First;
use crate::reasons::{first_reason, may_falsify};
use dsr_compensate::{Judged, Owner, listed};
use dsr_graph_theory::{Cause, Reason};
use dsr_ir::{NoMemory, Quant, Seq, Template, TryClone};
use std::alloc::Global;

/// What may come of a template.
pub struct Outcome {
    /// For each constraint why the template breaks it, if it does.
    pub broken: Seq<Edge>,
    /// For each kind of the own constraint's literals whether the template may turn one false.
    pub falsified: Seq<bool>,
}

impl Drop for Outcome {
    fn drop(self) {
        let Outcome {
            broken: _,
            falsified: _,
        } = self;
    }
}

/// The templates that are listed for literals of a kind, and what may come of each.
pub struct Listing {
    pub templates: Vec<Template>,
    pub outcomes: Vec<Outcome>,
}

impl Drop for Listing {
    fn drop(self) {
        let Listing {
            templates: _,
            outcomes: _,
        } = self;
    }
}

/// A constraint, with what is asked for each of its templates.
#[derive(Clone, Copy)]
pub struct Asked<'a> {
    pub owner: &'a Owner<'a>,
    /// The first literal of each kind.
    pub firsts: &'a [First],
    /// For each kind what may turn a literal false.
    pub own: &'a [Seq<Cause>],
    /// For each constraint what excuses changes that may break it.
    pub excuses: &'a [Excuses],
    /// For each constraint what may break it.
    pub causes: &'a [Seq<Cause>],
}

impl Asked<'_> {
    // Whether the constraint's own updates break nothing, since it has one binding.
    fn breaks_nothing(&self, excuses: &Excuses) -> bool
        ensures { (other : OwnerOf) → TellsExcuses (owner_of self.now.owner.now) other excuses.now
            → result ≡ (nat_eq (owner_of self.now.owner.now).number other.number
            && is_once (owner_of self.now.owner.now).constraint.quant) }
    {
        if !excuses.is_same() {
            return false;
        }
        matches!(self.owner.constraint().quant, Quant::Once)
    }

    // Why the template breaks the constraint with this number, if it does.
    fn reason(&self, judged: &Judged, other: usize) -> Option<Reason>
        requires asked { IsAskedOf self.now }
        requires judged { IsJudged (owner_of self.now.owner.now) judged.now }
        requires below { other < length self.now.excuses.now }
        ensures breaks { (constraint : ConstraintOf)
            → slice_get (owner_of self.now.owner.now).spec.constraints other ≡ Some constraint
            → Breaks (owner_of self.now.owner.now) (owner_at (owner_of self.now.owner.now).spec other constraint)
            judged.now.template result }
        ensures declared { IfSome result
            (λ r. IsDeclared (owner_of self.now.owner.now).spec.base (symbol_of r)) }
    {
        let excuses = &self.excuses[other];
        if self.breaks_nothing(excuses) {
            return None;
        }
        first_reason(self.owner, excuses, judged, self.causes[other].items())
    }

    fn broken(&self, alloc: Global, judged: &Judged) -> Result<Vec<Edge>, NoMemory>
        requires asked { IsAskedOf self.now }
        requires judged { IsJudged (owner_of self.now.owner.now) judged.now }
        ensures { IfOk result (λ edges. AreBroken (owner_of self.now.owner.now) judged.now.template edges.items) }
    {
        let mut edges = Vec::new(alloc);
        for other in 0..self.excuses.len() {
            edges.push(Edge::new(&self.owner.spec().base, self.reason(judged, other)))?;
        }
        Ok(edges)
    }

    fn falsified(&self, alloc: Global, judged: &Judged) -> Result<Vec<bool>, NoMemory>
        requires asked { IsAskedOf self.now }
        requires judged { IsJudged (owner_of self.now.owner.now) judged.now }
        ensures { IfOk result (λ marks. AreFalsified (owner_of self.now.owner.now) self.now.firsts.now
            judged.now.template marks.items) }
    {
        let mut marks = Vec::new(alloc);
        for causes in self.own {
            marks.push(may_falsify(self.owner, judged, causes.items()))?;
        }
        Ok(marks)
    }

    fn outcome(&self, alloc: Global, judged: &Judged) -> Result<Outcome, NoMemory>
        requires asked { IsAskedOf self.now }
        requires judged { IsJudged (owner_of self.now.owner.now) judged.now }
        ensures { IfOk result (IsOutcomeOf (owner_of self.now.owner.now) self.now.firsts.now judged.now.template) }
    {
        let broken = Seq::new(self.broken(alloc, judged)?);
        let falsified = Seq::new(self.falsified(alloc, judged)?);
        Ok(Outcome { broken, falsified })
    }

    fn outcomes(&self, alloc: Global, judged: &[Judged]) -> Result<Vec<Outcome>, NoMemory>
        requires asked { IsAskedOf self.now }
        requires judged { All (IsJudged (owner_of self.now.owner.now)) judged.now }
        ensures { IfOk result (λ outcomes. AreOutcomesOf (owner_of self.now.owner.now) self.now.firsts.now
            (templates_of judged.now) outcomes.items) }
    {
        let mut outcomes = Vec::new(alloc);
        for its in judged {
            let outcome = self.outcome(alloc, its)?;
            outcomes.push(outcome)?;
        }
        Ok(outcomes)
    }

    /// What is listed for literals of the kind with this first one.
    pub fn listing(&self, alloc: Global, first: &First) -> Result<Listing, NoMemory>
        requires asked { IsAskedOf self.now }
        requires first { IsFirstIn (owner_of self.now.owner.now).constraint first.now }
        ensures { IfOk result (IsListingOf (owner_of self.now.owner.now) self.now.firsts.now first.now.literal) }
    {
        let judged = listed(alloc, self.owner, first.conj, first.place)?;
        let outcomes = self.outcomes(alloc, &judged)?;
        let templates = templates(alloc, &judged)?;
        Ok(Listing {
            templates,
            outcomes,
        })
    }

    /// What is listed for each kind.
    pub fn listings(&self, alloc: Global) -> Result<Vec<Listing>, NoMemory>
        requires asked { IsAskedOf self.now }
        requires firsts { All (IsFirstIn (owner_of self.now.owner.now).constraint) self.now.firsts.now }
        ensures { IfOk result (λ listings. AreListingsOf (owner_of self.now.owner.now) self.now.firsts.now
            listings.items) }
    {
        let mut listings = Vec::new(alloc);
        for first in self.firsts {
            let listing = self.listing(alloc, first)?;
            listings.push(listing)?;
        }
        Ok(listings)
    }
}

// The templates by themselves.
fn templates(alloc: Global, judged: &[Judged]) -> Result<Vec<Template>, NoMemory>
    ensures { IfOk result (λ templates. templates.items ≡ templates_of judged.now) }
{
    let mut templates = Vec::new(alloc);
    for its in judged {
        let template = TryClone::clone(&its.template, alloc)?;
        templates.push(template)?;
    }
    Ok(templates)
}
