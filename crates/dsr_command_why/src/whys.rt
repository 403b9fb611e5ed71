// Why a fact is in the model.
ghost use Rattle.std.specs.Prelude.{◌≡◌, ◌≤◌, Decides, IfOk, Some, length, slice_get};
ghost use Rattle.dsr_command_why.specs.Whys.{IsWhyAnswer, TellsBelow, TellsChain, TellsMember, TellsOf, outside_answer};
ghost use Rattle.dsr_ir.specs.declared.updates.Symbol.TheVariants as symbols;
ghost use Rattle.dsr_command_why.specs.Facts.{fact_text};
ghost use Rattle.dsr_meaning.specs.Legal.{IsLegalLayout};
ghost use Rattle.dsr_meaning.specs.Limits.{most_bytes};
ghost use Rattle.dsr_meaning.specs.Models.{IsDerived};
ghost use Rattle.dsr_meaning.specs.Typed.{IsTyped};
ghost use Rattle.dsr_script.specs.Moves.{shown};
ghost use Rattle.dsr_step_theory.specs.Images.{IsImageOf};

use crate::facts::is_text;
use crate::images::laid_out;
use crate::lines::lines;
use crate::named::{member_ahead, pair_ahead};
use dsr_answers::{layout_refused, push, push_named, push_number, symbol_name, told};
use dsr_image::Whole;
use dsr_ir::{Element, Fact, Layout, NoMemory, Rel, SetDecl, Spec, Symbol};
use dsr_layout::record_count;
use dsr_script::{Told, Verdict};
use dsr_why::chain;
use std::alloc::Global;

// Why a fact is in the model of an image that has a layout; the fact is named by its text.
#[derive(Clone, Copy)]
struct Question<'a> {
    spec: &'a Spec,
    layout: &'a Layout,
    image: &'a Whole,
    word: &'a [u8],
}

// The answer that the record is outside of a set.
fn outside(alloc: Global, spec: &Spec, set: u32) -> Result<Told, NoMemory>
    ensures { IfOk result (λ told. shown told ≡ outside_answer spec.now set) }
{
    let mut text = Vec::new(alloc);
    push_named(&mut text, b"outside ", symbol_name(spec, Symbol::Set(set)))?;
    push(&mut text, b"\n")?;
    Ok(Told {
        verdict: Verdict::Ok,
        text,
    })
}

impl Question<'_> {
    // Whether chains end in a fact.
    fn is_derived(&self, alloc: Global, fact: &Fact) -> Result<bool, NoMemory>
        requires image { IsImageOf self.now.spec.now self.now.layout.now self.now.image.now }
        requires legal { IsLegalLayout self.now.layout.now }
        ensures { IfOk result (λ is. Decides is
            (IsDerived self.now.spec.now self.now.layout.now self.now.image.now fact.now)) }
    {
        let found = chain(alloc, self.spec, self.layout, self.image, fact)?;
        Ok(found.is_some())
    }

    // The answer that the first of the shortest chains of a fact is this one; none where there is
    // none.
    fn chain_told(&self, alloc: Global, fact: &Fact) -> Result<Option<Told>, NoMemory>
        requires image { IsImageOf self.now.spec.now self.now.layout.now self.now.image.now }
        requires legal { IsLegalLayout self.now.layout.now }
        requires text { fact_text self.now.spec.now fact.now ≡ self.now.word.now }
        ensures { IfOk result (TellsChain self.now.spec.now self.now.layout.now self.now.image.now
            self.now.word.now fact.now) }
    {
        let Some(chain) = chain(alloc, self.spec, self.layout, self.image, fact)? else {
            return Ok(None);
        };
        let mut text = lines(alloc, self.spec, self.layout, self.image, fact, &chain)?;
        push(&mut text, b"chain ")?;
        push_number(&mut text, chain.len() as u64)?;
        push(&mut text, b"\n")?;
        Ok(Some(Told {
            verdict: Verdict::Ok,
            text,
        }))
    }

    // The answer that a record is a member of the complement of a set; none where it isn't.
    fn outside_told(
        &self,
        alloc: Global,
        base: u32,
        elem: Element,
    ) -> Result<Option<Told>, NoMemory>
        requires image { IsImageOf self.now.spec.now self.now.layout.now self.now.image.now }
        requires legal { IsLegalLayout self.now.layout.now }
        ensures { IfOk result (TellsMember self.now.spec.now self.now.layout.now self.now.image.now
            base elem) }
    {
        if record_count(self.layout, elem.pool) <= u64::from(elem.slot) {
            return Ok(None);
        }
        if self.is_derived(alloc, &Fact::Member(base, elem))? {
            return Ok(None);
        }
        Ok(Some(outside(alloc, self.spec, base)?))
    }

    // The answer for the member of a set of which the word may be the text.
    fn member_told(
        &self,
        alloc: Global,
        number: u32,
        set: &SetDecl,
    ) -> Result<Option<Told>, NoMemory>
        requires image { IsImageOf self.now.spec.now self.now.layout.now self.now.image.now }
        requires legal { IsLegalLayout self.now.layout.now }
        requires among { slice_get self.now.spec.now.base.sets number ≡ Some set.now }
        ensures { IfOk result (TellsOf self.now.spec.now self.now.layout.now self.now.image.now
            self.now.word.now (symbols.Set number)) }
    {
        let elem = member_ahead(self.spec, number, set, self.word);
        let fact = Fact::Member(number, elem);
        if !is_text(alloc, self.spec, &fact, self.word)? {
            return Ok(None);
        }
        match set.except {
            Some(base) => self.outside_told(alloc, base, elem),
            None => self.chain_told(alloc, &fact),
        }
    }

    // The answer for the pair of a relation of which the word may be the text.
    fn pair_told(&self, alloc: Global, number: u32, rel: &Rel) -> Result<Option<Told>, NoMemory>
        requires image { IsImageOf self.now.spec.now self.now.layout.now self.now.image.now }
        requires legal { IsLegalLayout self.now.layout.now }
        requires among { slice_get self.now.spec.now.base.rels number ≡ Some rel.now }
        ensures { IfOk result (TellsOf self.now.spec.now self.now.layout.now self.now.image.now
            self.now.word.now (symbols.Rel number)) }
    {
        let fact = pair_ahead(self.spec, number, rel, self.word);
        if !is_text(alloc, self.spec, &fact, self.word)? {
            return Ok(None);
        }
        self.chain_told(alloc, &fact)
    }

    // The answer for a member whose text is the word.
    fn members_told(&self, alloc: Global) -> Result<Option<Told>, NoMemory>
        requires image { IsImageOf self.now.spec.now self.now.layout.now self.now.image.now }
        requires legal { IsLegalLayout self.now.layout.now }
        ensures { IfOk result (TellsBelow self.now.spec.now self.now.layout.now self.now.image.now
            self.now.word.now (λ k. symbols.Set k) (length self.now.spec.now.base.sets)) }
    {
        for (number, set) in self.spec.base.sets.items().iter().enumerate() {
            if let Some(answer) = self.member_told(alloc, number as u32, set)? {
                return Ok(Some(answer));
            }
        }
        Ok(None)
    }

    // The answer for a pair whose text is the word.
    fn pairs_told(&self, alloc: Global) -> Result<Option<Told>, NoMemory>
        requires image { IsImageOf self.now.spec.now self.now.layout.now self.now.image.now }
        requires legal { IsLegalLayout self.now.layout.now }
        ensures { IfOk result (TellsBelow self.now.spec.now self.now.layout.now self.now.image.now
            self.now.word.now (λ k. symbols.Rel k) (length self.now.spec.now.base.rels)) }
    {
        for (number, rel) in self.spec.base.rels.items().iter().enumerate() {
            if let Some(answer) = self.pair_told(alloc, number as u32, rel)? {
                return Ok(Some(answer));
            }
        }
        Ok(None)
    }
}

// The answer on an image that has a layout.
fn laid_out_told(
    alloc: Global,
    spec: &Spec,
    layout: &Layout,
    image: &Whole,
    word: &[u8],
) -> Result<Told, NoMemory>
    requires image { IsImageOf spec.now layout.now image.now }
    requires legal { IsLegalLayout layout.now }
    ensures { IfOk result (λ told. IsWhyAnswer spec.now image.now word.now (shown told)) }
{
    let question = Question {
        spec,
        layout,
        image,
        word,
    };
    if let Some(answer) = question.members_told(alloc)? {
        return Ok(answer);
    }
    if let Some(answer) = question.pairs_told(alloc)? {
        return Ok(answer);
    }
    told(alloc, Verdict::Ok, b"no chain\n")
}

/// The answer why the fact of which the word is the text is in the model of an image. The image has
/// no layout; or the instances of a shortest chain of the fact are told, line by line, and their
/// number; or the set outside of which the record is, where the fact is a member of a complement;
/// or `no chain`, where no fact of the model has this text.
pub fn why(alloc: Global, spec: &Spec, image: Vec<u8>, word: &[u8]) -> Result<Told, NoMemory>
    requires typed { IsTyped spec.now }
    requires small { length image.items ≤ most_bytes }
    ensures { IfOk result (λ told. IsWhyAnswer spec.now image.items word.now (shown told)) }
{
    let layout = match laid_out(alloc, spec, &image) {
        Ok(layout) => layout,
        Err(fault) => return layout_refused(alloc, spec, fault),
    };
    let image = Whole::new(image);
    laid_out_told(alloc, spec, &layout, &image, word)
}
