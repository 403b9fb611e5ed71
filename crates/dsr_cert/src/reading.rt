// The choice of a text.
ghost use Rattle.std.specs.Prelude.{◌≡◌, ◌≤◌, ◌<◌, ◌+◌, ◌^◌, ℕ, Decides, IfErr, IfOk, IfSome, MatchOption, OnOk, ◌++◌, Some, [], ◌∷◌, decimal, length, slice_get};
ghost use Rattle.bstr.specs.Text.{lines_of};
ghost use Rattle.dsr_cert.specs.Certificates as said;
ghost use Rattle.dsr_cert.specs.Certificates.{IsReadAs};
ghost use Rattle.dsr_cert.specs.Flaws.{Tells};
ghost use Rattle.dsr_cert.specs.Forms as forms;
ghost use Rattle.dsr_cert.specs.Forms.{HasNoWrongLine, Heading, Ending, IsFirstWrong, OfConstraint, OfLiteral};
ghost use Rattle.dsr_cert.specs.Parts as parts;
ghost use Rattle.dsr_cert.specs.Parts.{Reads, Stands, texts_of};
ghost use Rattle.dsr_cert.specs.declared.faults.CertFault.TheVariants as faults;
ghost use Rattle.dsr_graph.specs.Graphs.{IsGraphOf};
ghost use Rattle.dsr_meaning.specs.Typed.{IsTyped};
ghost use Rattle.dsr_cert.specs.Searches.{literal_in};
ghost use Rattle.dsr_plan_theory.specs.Plans.{IsListedAt, owner_at};
ghost use Rattle.dsr_plan_theory.specs.declared.choices.Choice.{Choice as ChoiceOf};

use crate::faults::CertFault;
use crate::lines::{Said, behind, line_at, number_below, what_is_said};
use crate::writing::{push_name, push_position};
use bstr::ByteSlice;
use dsr_graph::{Graph, Position, ways};
use dsr_ir::{Conj, Constraint, Literal, NoMemory, Seq, Spec, Template, TryClone};
use dsr_plan_theory::{Choice, Row, Way, way_place};
use std::alloc::Global;

// The levels that are read are below this.
fn level_bound(spec: &Spec) -> u32
    ensures { result ≡ said.level_bound spec.now }
{
    if spec.base.version == 2 { 128 } else { 64 }
}

// No more templates than this are listed for a literal.
const MOST_WAYS: u32 = 64;

// Puts the item behind the others.
fn add<T: Drop>(items: &mut Vec<T>, item: T) -> Result<(), NoMemory>
    ensures { OnOk result (items.new.items ≡ items.old.items ++ item ∷ []) }
{
    items.push(item)?;
    Ok(())
}

// The lines of the text, with their line feeds.
fn split<'a>(alloc: Global, text: &'a [u8]) -> Result<Vec<&'a [u8]>, NoMemory>
    ensures { IfOk result (λ lines. texts_of lines.items ≡ lines_of text.entry.now) }
{
    Ok(text.lines_with_terminator().collect(alloc)?)
}

// The fault of the line with this place.
fn faulty(at: usize) -> CertFault
    requires small { at < 2 ^ 32 }
    ensures { result ≡ faults.Text (at + 1) }
{
    CertFault::Text(at as u64 + 1)
}

/// The lines of a text, with what they are read for.
#[derive(Clone, Copy)]
struct Reader<'a> {
    spec: &'a Spec,
    graph: &'a Graph,
    lines: &'a [&'a [u8]],
}

impl<'a> Reader<'a> {
    fn is_line(&self, at: usize, expected: &[u8]) -> bool
        ensures { Decides result
            (slice_get (texts_of self.now.lines.now) at ≡ Some (said.ended expected.now)) }
    {
        let Some(line) = line_at(self.lines, at) else {
            return false;
        };
        line == expected
    }

    // The level that the line says behind the front.
    fn level(&self, at: usize, front: &[u8]) -> Option<u32>
        ensures { MatchOption result
            ((level : ℕ) → level < said.level_bound self.now.spec.now
            → parts.Says (texts_of self.now.lines.now) at front.now (decimal level) → ⊥)
            (λ level. (level < said.level_bound self.now.spec.now)
            × parts.Says (texts_of self.now.lines.now) at front.now (decimal level)) }
    {
        let line = line_at(self.lines, at)?;
        let digits = behind(line, front)?;
        number_below(digits, level_bound(self.spec))
    }

    // What the line says behind the front.
    fn said(&self, at: usize, front: &[u8]) -> Said<'a>
        ensures { parts.IsSaidAt (texts_of self.now.lines.now) at front.now result }
    {
        let Some(line) = line_at(self.lines, at) else {
            return Said::Other;
        };
        let Some(text) = behind(line, front) else {
            return Said::Other;
        };
        what_is_said(text)
    }

    // The template with these digits, and its number.
    fn named(&self, at: Position, digits: &[u8]) -> Option<(u32, &'a Template)>
        requires graph { IsGraphOf self.now.spec.now self.now.graph.now }
        ensures digits { IfSome result (λ p. digits.now ≡ decimal p.0) }
        ensures listed { parts.AtOwner self.now.spec.now at.constraint (λ owner. MatchOption result
            (forms.NamesNone owner at.conj at.literal digits.now)
            (λ p. IsListedAt owner at.conj at.literal p.0 p.1.now)) }
    {
        let Some(number) = number_below(digits, MOST_WAYS + 1) else {
            return None;
        };
        if number == 0 {
            return None;
        }
        match ways(self.graph, at).get(way_place(number) as usize) {
            Some(template) => Some((number, template)),
            None => None,
        }
    }

    // The way with these digits.
    fn named_way(
        &self,
        alloc: Global,
        at: Position,
        literal: &Literal,
        digits: &[u8],
    ) -> Result<Way, CertFault>
        requires graph { IsGraphOf self.now.spec.now self.now.graph.now }
        ensures { parts.IsWayNamed self.now.spec.now at.constraint at.conj at.literal literal.now
            digits.now result }
    {
        if literal.given {
            return Err(CertFault::NotATemplate(at.constraint, at.conj, at.literal));
        }
        let Some((number, template)) = self.named(at, digits) else {
            return Err(CertFault::NotATemplate(at.constraint, at.conj, at.literal));
        };
        let template = TryClone::clone(template, alloc)?;
        Ok(Way::By(number, template))
    }

    fn read_heading(&self) -> Result<(), CertFault>
        requires stands { Stands self.now.spec.now 0 (Heading ∷ []) }
        ensures { Reads self.now.spec.now (texts_of self.now.lines.now) 0 (Heading ∷ [])
            (λ _. said.first_line ∷ []) (λ _. Unit {0}) result }
    {
        if !self.is_line(0, b"certificate 1") {
            return Err(faulty(0));
        }
        Ok(())
    }

    fn read_ending(&self, at: usize) -> Result<(), CertFault>
        requires typed { IsTyped self.now.spec.now }
        requires stands { Stands self.now.spec.now at (Ending ∷ []) }
        ensures { Reads self.now.spec.now (texts_of self.now.lines.now) at (Ending ∷ [])
            (λ _. said.last_line ∷ []) (λ _. Unit {0}) result }
    {
        if !self.is_line(at, b"end") {
            return Err(faulty(at));
        }
        Ok(())
    }

    // The level of the constraint with this number.
    fn read_level(&self, alloc: Global, at: usize, number: usize) -> Result<u32, CertFault>
        requires typed { IsTyped self.now.spec.now }
        requires stands { Stands self.now.spec.now at (OfConstraint number ∷ []) }
        ensures { Reads self.now.spec.now (texts_of self.now.lines.now) at (OfConstraint number ∷ [])
            (λ level. said.constraint_line self.now.spec.now number level ∷ [])
            (λ level. level < said.level_bound self.now.spec.now) result }
    {
        let mut front = Vec::new(alloc);
        push_name(&mut front, self.spec, number)?;
        match self.level(at, &front) {
            Some(level) => Ok(level),
            None => Err(faulty(at)),
        }
    }

    // The way of the literal.
    fn read_way(
        &self,
        alloc: Global,
        line: usize,
        at: Position,
        literal: &Literal,
    ) -> Result<Way, CertFault>
        requires typed { IsTyped self.now.spec.now }
        requires graph { IsGraphOf self.now.spec.now self.now.graph.now }
        requires literal { literal_in self.now.spec.now at.constraint at.conj at.literal
            ≡ Some literal.now }
        requires stands { Stands self.now.spec.now line
            (OfLiteral at.constraint at.conj at.literal ∷ []) }
        ensures { Reads self.now.spec.now (texts_of self.now.lines.now) line
            (OfLiteral at.constraint at.conj at.literal ∷ [])
            (λ way. said.way_line at.conj at.literal way ∷ [])
            (λ way. parts.AtOwner self.now.spec.now at.constraint
            (λ owner. said.NamesWay owner at.conj at.literal literal.now way)) result }
    {
        let mut front = Vec::new(alloc);
        push_position(&mut front, at.conj as usize, at.literal as usize)?;
        match self.said(line, &front) {
            Said::Test => Ok(Way::Test),
            Said::Numbered(digits) => self.named_way(alloc, at, literal, digits),
            Said::Other => Err(faulty(line)),
        }
    }

    // The ways of a conjunction's literals.
    fn read_conj(
        &self,
        alloc: Global,
        line: usize,
        number: u32,
        conj: u32,
        its: &Conj,
    ) -> Result<Vec<Way>, CertFault>
        requires typed { IsTyped self.now.spec.now }
        requires graph { IsGraphOf self.now.spec.now self.now.graph.now }
        requires conj { parts.conj_in self.now.spec.now number conj ≡ Some its.now }
        requires stands { Stands self.now.spec.now line (forms.conj_forms number conj its.now) }
        ensures { Reads self.now.spec.now (texts_of self.now.lines.now) line
            (forms.conj_forms number conj its.now)
            (λ ways. said.conj_lines conj ways.items)
            (λ ways. parts.AtOwner self.now.spec.now number
            (λ owner. parts.AreNamedIn owner conj its.now ways.items)) result }
    {
        let mut ways = Vec::new(alloc);
        for (place, literal) in its.literals.items().iter().enumerate() {
            let at = Position {
                constraint: number,
                conj,
                literal: place as u32,
            };
            let way = self.read_way(alloc, line + place, at, literal)?;
            add(&mut ways, way)?;
        }
        Ok(ways)
    }

    // The ways of a constraint's literals, and the place behind their lines.
    fn read_conjs(
        &self,
        alloc: Global,
        line: usize,
        number: u32,
        constraint: &Constraint,
    ) -> Result<(Vec<Seq<Way>>, usize), CertFault>
        requires typed { IsTyped self.now.spec.now }
        requires graph { IsGraphOf self.now.spec.now self.now.graph.now }
        requires constraint { slice_get self.now.spec.now.constraints number ≡ Some constraint.now }
        requires stands { Stands self.now.spec.now line (forms.conjs_forms number constraint.now) }
        ensures { Reads self.now.spec.now (texts_of self.now.lines.now) line
            (forms.conjs_forms number constraint.now)
            (λ read. said.conjs_lines read.0.items)
            (λ read. parts.AreNamed (owner_at self.now.spec.now number constraint.now) read.0.items
            × (read.1 ≡ line + length (forms.conjs_forms number constraint.now))) result }
    {
        let mut rows = Vec::new(alloc);
        let mut next = line;
        for (place, conj) in constraint.conjs.items().iter().enumerate() {
            let ways = self.read_conj(alloc, next, number, place as u32, conj)?;
            next += ways.len();
            add(&mut rows, Seq::new(ways))?;
        }
        Ok((rows, next))
    }

    // A constraint's row, and the place behind its lines.
    fn read_row(
        &self,
        alloc: Global,
        line: usize,
        number: u32,
        constraint: &Constraint,
    ) -> Result<(Row, usize), CertFault>
        requires typed { IsTyped self.now.spec.now }
        requires graph { IsGraphOf self.now.spec.now self.now.graph.now }
        requires constraint { slice_get self.now.spec.now.constraints number ≡ Some constraint.now }
        requires stands { Stands self.now.spec.now line
            (forms.constraint_forms number constraint.now) }
        ensures { Reads self.now.spec.now (texts_of self.now.lines.now) line
            (forms.constraint_forms number constraint.now)
            (λ read. said.row_lines self.now.spec.now number read.0)
            (λ read. parts.IsNamedRow self.now.spec.now number constraint.now read.0
            × (read.1 ≡ line + length (forms.constraint_forms number constraint.now))) result }
    {
        let level = self.read_level(alloc, line, number as usize)?;
        let (ways, next) = self.read_conjs(alloc, line + 1, number, constraint)?;
        let row = Row {
            level,
            ways: Seq::new(ways),
        };
        Ok((row, next))
    }

    // The rows of all constraints, and the place behind their lines.
    fn read_rows(&self, alloc: Global) -> Result<(Vec<Row>, usize), CertFault>
        requires typed { IsTyped self.now.spec.now }
        requires graph { IsGraphOf self.now.spec.now self.now.graph.now }
        requires stands { Stands self.now.spec.now 1 (forms.constraints_forms self.now.spec.now) }
        ensures { Reads self.now.spec.now (texts_of self.now.lines.now) 1
            (forms.constraints_forms self.now.spec.now)
            (λ read. said.rows_lines self.now.spec.now read.0.items)
            (λ read. parts.AreNamedRows self.now.spec.now read.0.items
            × (read.1 ≡ 1 + length (forms.constraints_forms self.now.spec.now))) result }
    {
        let mut rows = Vec::new(alloc);
        let mut next = 1;
        for (number, constraint) in self.spec.constraints.items().iter().enumerate() {
            let (row, behind) = self.read_row(alloc, next, number as u32, constraint)?;
            add(&mut rows, row)?;
            next = behind;
        }
        Ok((rows, next))
    }

    // The choice of all lines.
    fn read(&self, alloc: Global) -> Result<Choice, CertFault>
        requires typed { IsTyped self.now.spec.now }
        requires graph { IsGraphOf self.now.spec.now self.now.graph.now }
        ensures { parts.ReadsAll self.now.spec.now (texts_of self.now.lines.now) result }
    {
        self.read_heading()?;
        let (rows, next) = self.read_rows(alloc)?;
        self.read_ending(next)?;
        if self.lines.len() > next + 1 {
            return Err(faulty(next + 1));
        }
        Ok(Choice {
            rows: Seq::new(rows),
        })
    }
}

/// The choice of a text, or its first faulty line. That no other choice has this text is a clause
/// here and no law, since a template is determined by its number only where the graph is there. By
/// this clause `verify` speaks of certificates, and not only of what was read as one.
pub fn read_cert(
    alloc: Global,
    spec: &Spec,
    graph: &Graph,
    text: &[u8],
) -> Result<Choice, CertFault>
    requires typed { IsTyped spec.now }
    requires graph { IsGraphOf spec.now graph.now }
    ensures choice { IfOk result (IsReadAs spec.now text.now) }
    ensures right { IfOk result (λ _. HasNoWrongLine spec.now text.now) }
    ensures only { IfOk result (λ choice. (other : ChoiceOf)
        → IsReadAs spec.now text.now other → other ≡ choice) }
    ensures fault { IfErr result (Tells (IsFirstWrong spec.now text.now)) }
{
    let lines = split(alloc, text)?;
    let reader = Reader {
        spec,
        graph,
        lines: &lines,
    };
    reader.read(alloc)
}
