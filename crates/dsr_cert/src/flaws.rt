// The first flaw that keeps a choice from being a plan.
ghost use Rattle.std.specs.Prelude.{◌≡◌, Decides, IfOk, MatchOption, [], ◌∷◌, map, option_map, slice_get};
ghost use Rattle.dsr_cert.specs.Certificates.{Fits};
ghost use Rattle.dsr_cert.specs.Flaws.{HasWay, IsBreaking, IsFalsifying, IsRelying, IsUncovered, IsUnlisted};
ghost use Rattle.dsr_cert.specs.Searches as said;
ghost use Rattle.dsr_cert.specs.Searches.{IsTakenFor, MayAsk, NoneUnder, Searches, kind_of, marks_of};
ghost use Rattle.dsr_placement.specs.Atoms as marked;
ghost use Rattle.dsr_graph.specs.Graphs.{IsGraphOf, IsOwnerIn};
ghost use Rattle.dsr_graph_theory.specs.Owners.{Owner as OwnerOf};
ghost use Rattle.dsr_meaning.specs.Typed.{IsTyped};
ghost use Rattle.dsr_plan_theory.specs.Plans.{Covers, IsListedAt};

use crate::faults::CertFault;
use dsr_graph::{Graph, Position, breaks, falsifies, relies, ways};
use dsr_ir::{Constraint, Literal, NoMemory, Seq, Spec, Template};
use dsr_placement::covers;
use dsr_plan_theory::{Choice, Row, Way, way_place};
use std::alloc::Global;

// How many constraints, conjunctions and literals there are at most.
const MOST_CONSTRAINTS: u32 = 128;

const MOST_CONJS: u32 = 16;

const MOST_LITERALS: u32 = 8;

fn is_test(way: &Way) -> bool
    ensures { result ≡ said.is_test way.now }
{
    match way {
        Way::Test => true,
        Way::By(_, _) => false,
    }
}

fn conj_marks(alloc: Global, ways: &[Way]) -> Result<Vec<bool>, NoMemory>
    ensures { IfOk result (λ marks. marks.items ≡ map said.is_test ways.now) }
{
    let mut marks = Vec::new(alloc);
    for way in ways {
        marks.push(is_test(way))?;
    }
    Ok(marks)
}

// Which literals the row tests.
fn marks(alloc: Global, row: &Row) -> Result<Vec<Seq<bool>>, NoMemory>
    ensures { IfOk result (λ marks. marks.items ≡ marks_of row.now) }
{
    let mut rows = Vec::new(alloc);
    for ways in row.ways.items() {
        rows.push(Seq::new(conj_marks(alloc, ways.items())?))?;
    }
    Ok(rows)
}

// Whether the constraint is covered by the tests of its row.
fn is_covered(alloc: Global, constraint: &Constraint, row: &Row) -> Result<bool, NoMemory>
    ensures { IfOk result
        (λ is. Decides is (Covers constraint.now (marked.IsTested (marks_of row.now)))) }
{
    let marks = marks(alloc, row)?;
    covers(alloc, constraint, &marks)
}

// Whether the template has this number among those that are listed for the literal, counted from 1.
fn is_listed(graph: &Graph, at: Position, number: u32, template: &Template) -> bool
    ensures { (owner : OwnerOf) → IsOwnerIn graph.now at.constraint owner
        → Decides result (IsListedAt owner at.conj at.literal number template.now) }
{
    if number == 0 {
        return false;
    }
    match ways(graph, at).get(way_place(number) as usize) {
        Some(listed) => *listed == *template,
        None => false,
    }
}

/// What may be wrong with the template of a literal.
#[derive(Clone, Copy)]
pub enum Wrong {
    Unlisted,
    Falsifying,
    Breaking,
}

// A template that a choice has for a literal, with its number.
#[derive(Clone, Copy)]
struct Taken<'a> {
    literal: &'a Literal,
    number: u32,
    template: &'a Template,
}

/// A choice for a specification, and the specification's graph.
#[derive(Clone, Copy)]
pub struct Chosen<'a> {
    pub spec: &'a Spec,
    pub graph: &'a Graph,
    pub choice: &'a Choice,
}

impl<'a> Chosen<'a> {
    fn literal(&self, at: Position) -> Option<&'a Literal>
        ensures { option_map (λ l. l.now) result
            ≡ said.literal_in self.now.spec.now at.constraint at.conj at.literal }
    {
        let constraint = self.spec.constraints.items().get(at.constraint as usize)?;
        let conj = constraint.conjs.items().get(at.conj as usize)?;
        conj.literals.items().get(at.literal as usize)
    }

    fn row(&self, number: u32) -> Option<&'a Row>
        ensures { option_map (λ r. r.now) result ≡ slice_get self.now.choice.now.rows number }
    {
        self.choice.rows.items().get(number as usize)
    }

    fn way(&self, at: Position) -> Option<&'a Way>
        ensures { option_map (λ w. w.now) result
            ≡ said.way_in self.now.choice.now at.constraint at.conj at.literal }
    {
        let row = self.row(at.constraint)?;
        let ways = row.ways.items().get(at.conj as usize)?;
        ways.items().get(at.literal as usize)
    }

    // The template of the literal.
    fn taken(&self, at: Position) -> Option<Taken<'a>>
        ensures { MatchOption result
            (HasWay self.now.spec.now self.now.choice.now at.constraint at.conj at.literal → ⊥)
            (λ t. IsTakenFor self.now.spec.now self.now.choice.now at.constraint at.conj at.literal
            t.literal.now t.number t.template.now) }
    {
        let literal = self.literal(at)?;
        match self.way(at)? {
            Way::Test => None,
            Way::By(number, template) => Some(Taken {
                literal,
                number: *number,
                template,
            }),
        }
    }

    // Whether the constraint with this number isn't covered by its tests.
    fn is_uncovered(&self, alloc: Global, number: u32) -> Result<bool, NoMemory>
        ensures { IfOk result
            (λ is. Decides is (IsUncovered self.now.spec.now self.now.choice.now number)) }
    {
        let Some(constraint) = self.spec.constraints.items().get(number as usize) else {
            return Ok(false);
        };
        let Some(row) = self.row(number) else {
            return Ok(false);
        };
        Ok(!is_covered(alloc, constraint, row)?)
    }

    // Whether the literal is `given`, or its template isn't listed.
    fn is_unlisted(&self, at: Position) -> bool
        requires graph { IsGraphOf self.now.spec.now self.now.graph.now }
        ensures { Decides result
            (IsUnlisted self.now.spec.now self.now.choice.now at.constraint at.conj at.literal) }
    {
        let Some(taken) = self.taken(at) else {
            return false;
        };
        taken.literal.given || !is_listed(self.graph, at, taken.number, taken.template)
    }

    // Whether the template of the literal falsifies another one.
    fn is_falsifying(&self, at: Position) -> bool
        requires graph { IsGraphOf self.now.spec.now self.now.graph.now }
        requires listed { NoneUnder self.now.spec.now self.now.choice.now (1 ∷ []) }
        ensures { Decides result
            (IsFalsifying self.now.spec.now self.now.choice.now at.constraint at.conj at.literal) }
    {
        let Some(taken) = self.taken(at) else {
            return false;
        };
        let way = way_place(taken.number);
        falsifies(self.graph, at, way).is_some()
    }

    // Whether it breaks the other constraint, whose level isn't higher.
    fn is_breaking(&self, at: Position, other: u32) -> bool
        requires graph { IsGraphOf self.now.spec.now self.now.graph.now }
        requires fits { Fits self.now.spec.now self.now.choice.now }
        requires listed { NoneUnder self.now.spec.now self.now.choice.now (1 ∷ []) }
        ensures { Decides result
            (IsBreaking self.now.spec.now self.now.choice.now at.constraint at.conj at.literal other) }
    {
        let Some(taken) = self.taken(at) else {
            return false;
        };
        if !self.is_not_above(other, at.constraint) {
            return false;
        }
        let way = way_place(taken.number);
        breaks(self.graph, at, way, other).is_some()
    }

    // Whether there are rows of both, and the level of the first isn't higher.
    fn is_not_above(&self, number: u32, other: u32) -> bool
        ensures { Decides result (said.IsNotAbove self.now.choice.now number other) }
    {
        let Some(row) = self.row(number) else {
            return false;
        };
        let Some(other_row) = self.row(other) else {
            return false;
        };
        row.level <= other_row.level
    }

    // Whether the constraint relies on the other one, whose level isn't lower.
    fn is_relying(&self, number: u32, on: u32) -> bool
        requires graph { IsGraphOf self.now.spec.now self.now.graph.now }
        requires fits { Fits self.now.spec.now self.now.choice.now }
        ensures { Decides result (IsRelying self.now.spec.now self.now.choice.now number on) }
    {
        if !self.is_not_above(number, on) {
            return false;
        }
        relies(self.graph, number, on)
    }

    fn check_coverage(&self, alloc: Global) -> Result<(), CertFault>
        requires typed { IsTyped self.now.spec.now }
        ensures { Searches self.now.spec.now self.now.choice.now (0 ∷ []) result }
    {
        for number in 0..MOST_CONSTRAINTS {
            if self.is_uncovered(alloc, number)? {
                return Err(CertFault::Coverage(number));
            }
        }
        Ok(())
    }

    // Whether the template of the literal breaks none that it mustn't.
    fn check_breaking(&self, at: Position) -> Result<(), CertFault>
        requires typed { IsTyped self.now.spec.now }
        requires graph { IsGraphOf self.now.spec.now self.now.graph.now }
        requires fits { Fits self.now.spec.now self.now.choice.now }
        requires listed { NoneUnder self.now.spec.now self.now.choice.now (1 ∷ []) }
        ensures { Searches self.now.spec.now self.now.choice.now
            (3 ∷ at.constraint ∷ at.conj ∷ at.literal ∷ []) result }
    {
        for other in 0..MOST_CONSTRAINTS {
            if self.is_breaking(at, other) {
                return Err(CertFault::Edge(at.constraint, other));
            }
        }
        Ok(())
    }

    fn check_literal(&self, wrong: Wrong, at: Position) -> Result<(), CertFault>
        requires typed { IsTyped self.now.spec.now }
        requires graph { IsGraphOf self.now.spec.now self.now.graph.now }
        requires fits { Fits self.now.spec.now self.now.choice.now }
        requires listed { MayAsk self.now.spec.now self.now.choice.now wrong }
        ensures { Searches self.now.spec.now self.now.choice.now
            (kind_of wrong ∷ at.constraint ∷ at.conj ∷ at.literal ∷ []) result }
    {
        match wrong {
            Wrong::Unlisted => {
                if self.is_unlisted(at) {
                    return Err(CertFault::NotATemplate(at.constraint, at.conj, at.literal));
                }
                Ok(())
            }
            Wrong::Falsifying => {
                if self.is_falsifying(at) {
                    return Err(CertFault::Falsifies(at.constraint, at.conj, at.literal));
                }
                Ok(())
            }
            Wrong::Breaking => self.check_breaking(at),
        }
    }

    fn check_conj(&self, wrong: Wrong, constraint: u32, conj: u32) -> Result<(), CertFault>
        requires typed { IsTyped self.now.spec.now }
        requires graph { IsGraphOf self.now.spec.now self.now.graph.now }
        requires fits { Fits self.now.spec.now self.now.choice.now }
        requires listed { MayAsk self.now.spec.now self.now.choice.now wrong }
        ensures { Searches self.now.spec.now self.now.choice.now
            (kind_of wrong ∷ constraint ∷ conj ∷ []) result }
    {
        for literal in 0..MOST_LITERALS {
            self.check_literal(
                wrong,
                Position {
                    constraint,
                    conj,
                    literal,
                },
            )?;
        }
        Ok(())
    }

    fn check_row(&self, wrong: Wrong, constraint: u32) -> Result<(), CertFault>
        requires typed { IsTyped self.now.spec.now }
        requires graph { IsGraphOf self.now.spec.now self.now.graph.now }
        requires fits { Fits self.now.spec.now self.now.choice.now }
        requires listed { MayAsk self.now.spec.now self.now.choice.now wrong }
        ensures { Searches self.now.spec.now self.now.choice.now
            (kind_of wrong ∷ constraint ∷ []) result }
    {
        for conj in 0..MOST_CONJS {
            self.check_conj(wrong, constraint, conj)?;
        }
        Ok(())
    }

    fn check_templates(&self, wrong: Wrong) -> Result<(), CertFault>
        requires typed { IsTyped self.now.spec.now }
        requires graph { IsGraphOf self.now.spec.now self.now.graph.now }
        requires fits { Fits self.now.spec.now self.now.choice.now }
        requires listed { MayAsk self.now.spec.now self.now.choice.now wrong }
        ensures { Searches self.now.spec.now self.now.choice.now (kind_of wrong ∷ []) result }
    {
        for constraint in 0..MOST_CONSTRAINTS {
            self.check_row(wrong, constraint)?;
        }
        Ok(())
    }

    fn check_reliance(&self, number: u32) -> Result<(), CertFault>
        requires typed { IsTyped self.now.spec.now }
        requires graph { IsGraphOf self.now.spec.now self.now.graph.now }
        requires fits { Fits self.now.spec.now self.now.choice.now }
        ensures { Searches self.now.spec.now self.now.choice.now (4 ∷ number ∷ []) result }
    {
        for on in 0..MOST_CONSTRAINTS {
            if self.is_relying(number, on) {
                return Err(CertFault::Reliance(number, on));
            }
        }
        Ok(())
    }

    fn check_reliances(&self) -> Result<(), CertFault>
        requires typed { IsTyped self.now.spec.now }
        requires graph { IsGraphOf self.now.spec.now self.now.graph.now }
        requires fits { Fits self.now.spec.now self.now.choice.now }
        ensures { Searches self.now.spec.now self.now.choice.now (4 ∷ []) result }
    {
        for number in 0..MOST_CONSTRAINTS {
            self.check_reliance(number)?;
        }
        Ok(())
    }

    /// Whether the choice has no flaw; else its first one.
    pub fn check(&self, alloc: Global) -> Result<(), CertFault>
        requires typed { IsTyped self.now.spec.now }
        requires graph { IsGraphOf self.now.spec.now self.now.graph.now }
        requires fits { Fits self.now.spec.now self.now.choice.now }
        ensures { Searches self.now.spec.now self.now.choice.now [] result }
    {
        self.check_coverage(alloc)?;
        self.check_templates(Wrong::Unlisted)?;
        self.check_templates(Wrong::Falsifying)?;
        self.check_templates(Wrong::Breaking)?;
        self.check_reliances()
    }
}
