// Structures and their fields.
ghost use Rattle.std.specs.Prelude.{◌≡◌, IfOk, IfErr, ◌∷◌, []};
ghost use Rattle.dsr_tree.specs.Trees as shapes;
ghost use Rattle.dsr_syntax_theory.specs.Grammar as grammar;
ghost use Rattle.dsr_syntax_theory.specs.Phrases.{in_turn};
ghost use Rattle.dsr_syntax_theory.specs.Syntax.{Many};
ghost use Rattle.dsr_syntax_theory.specs.TreeTexts as texts;
ghost use Rattle.dsr_parse.specs.Ends as ends;
ghost use Rattle.dsr_parse.specs.Reading.{Reads, Halts, is_next, said_field, said_structure, said_length};

use crate::reader::{Reader, Stop, both};
use dsr_ir::Seq;
use dsr_tree::{Content, Expr, Field, Keyword, NamedField, PlacedName, Sign, Structure, Width};

impl<'a> Reader<'a> {
    pub fn structures(&mut self) -> Result<Vec<Structure>, Stop>
        ensures ok { IfOk result (λ structures. Reads (Many grammar.structure)
            (in_turn said_structure structures.items) self.old self.new) }
        ensures err { IfErr result (λ e. Halts (Many grammar.structure ∷ []) self.old e) }
    {
        let mut structures = Vec::new(self.alloc);
        while self.is_word(Keyword::Structure) {
            structures.push(self.structure()?)?;
        }
        Ok(structures)
    }

    fn structure(&mut self) -> Result<Structure, Stop>
        ensures ok { IfOk result (λ s. Reads grammar.structure
            (texts.structure_text (shapes.structure_shape s)) self.old self.new) }
        ensures err { IfErr result (λ e. Halts (grammar.structure ∷ []) self.old e) }
    {
        let place = self.word(Keyword::Structure)?;
        let name = self.name()?;
        let (name, parent) = both(name, self.parent())?;
        let fields = self.braced_fields()?;
        Ok(Structure {
            place,
            name,
            parent,
            fields: Seq::new(fields),
        })
    }

    // Reads the fields of a structure in their braces.
    fn braced_fields(&mut self) -> Result<Vec<Field>, Stop>
        ensures ok { IfOk result (λ fields. Reads ends.braced_fields
            (ends.braced_text (in_turn said_field fields.items)) self.old self.new) }
        ensures err { IfErr result (λ e. Halts (ends.braced_fields ∷ []) self.old e) }
    {
        self.sign(Sign::OpenBrace)?;
        let fields = self.fields()?;
        self.ended(fields, Sign::CloseBrace)
    }

    fn parent(&mut self) -> Result<Option<PlacedName>, Stop>
        ensures ok { IfOk result (λ parent. Reads (grammar.maybe grammar.parent)
            (texts.maybe_text texts.parent_text parent) self.old self.new) }
        ensures err { IfErr result (λ e. Halts (grammar.maybe grammar.parent ∷ []) self.old e) }
    {
        if self.take_word(Keyword::Extends).is_none() {
            return Ok(None);
        }
        Ok(Some(self.name()?))
    }

    fn fields(&mut self) -> Result<Vec<Field>, Stop>
        ensures ok { IfOk result (λ fields. Reads (Many grammar.field)
            (in_turn said_field fields.items) self.old self.new) }
        ensures err { IfErr result (λ e. Halts (Many grammar.field ∷ []) self.old e) }
    {
        let mut fields = Vec::new(self.alloc);
        while self.is_field() {
            fields.push(self.field()?)?;
        }
        Ok(fields)
    }

    fn is_field(&self) -> bool
        ensures { result ≡ is_next grammar.field self.now.rest }
    {
        self.is_word(Keyword::Skip) || self.is_word(Keyword::Fixed) || self.is_width()
    }

    fn is_width(&self) -> bool
        ensures { result ≡ is_next grammar.width self.now.rest }
    {
        self.is_word(Keyword::U8)
            || self.is_word(Keyword::U16)
            || self.is_word(Keyword::U32)
            || self.is_word(Keyword::U64)
            || self.is_word(Keyword::Bits)
    }

    fn field(&mut self) -> Result<Field, Stop>
        ensures ok { IfOk result (λ f. Reads grammar.field
            (texts.field_text (shapes.field_shape f)) self.old self.new) }
        ensures err { IfErr result (λ e. Halts (grammar.field ∷ []) self.old e) }
    {
        if self.is_word(Keyword::Skip) {
            self.skip()
        } else {
            Ok(Field::Named(self.named_field()?))
        }
    }

    // Reads bytes that are skipped.
    fn skip(&mut self) -> Result<Field, Stop>
        ensures ok { IfOk result (λ f. Reads grammar.skip
            (texts.field_text (shapes.field_shape f)) self.old self.new) }
        ensures err { IfErr result (λ e. Halts (grammar.skip ∷ []) self.old e) }
    {
        let place = self.starting_word(Keyword::Skip)?;
        let length = self.expr(0)?;
        self.ended(Field::Skip { place, length }, Sign::Semicolon)
    }

    fn named_field(&mut self) -> Result<NamedField, Stop>
        ensures ok { IfOk result (λ f. Reads grammar.named_field
            (texts.named_field_text (shapes.named_shape f)) self.old self.new) }
        ensures err { IfErr result (λ e. Halts (grammar.named_field ∷ []) self.old e) }
    {
        let fixed = self.take_word(Keyword::Fixed);
        let width = self.width()?;
        let name = self.name()?;
        let (length, content) = self.field_end()?;
        Ok(NamedField {
            fixed,
            width,
            name,
            length,
            content,
        })
    }

    // Reads what stands behind the name of a field.
    fn field_end(&mut self) -> Result<(Option<Expr>, Option<Content>), Stop>
        ensures ok { IfOk result (λ f. Reads ends.field_end
            (ends.field_end_text f.0 f.1) self.old self.new) }
        ensures err { IfErr result (λ e. Halts (ends.field_end ∷ []) self.old e) }
    {
        let length = self.length()?;
        let end = both(length, self.content())?;
        self.ended(end, Sign::Semicolon)
    }

    fn width(&mut self) -> Result<Width, Stop>
        ensures ok { IfOk result (λ w. Reads grammar.width (texts.width_text w) self.old self.new) }
        ensures err { IfErr result (λ e. Halts (grammar.width ∷ []) self.old e) }
    {
        if let Some(place) = self.take_word(Keyword::U8) {
            return Ok(Width::U8 { place });
        }
        if let Some(place) = self.take_word(Keyword::U16) {
            return Ok(Width::U16 { place });
        }
        if let Some(place) = self.take_word(Keyword::U32) {
            return Ok(Width::U32 { place });
        }
        if let Some(place) = self.take_word(Keyword::U64) {
            return Ok(Width::U64 { place });
        }
        let place = self.word(Keyword::Bits)?;
        let number = self.number()?;
        Ok(Width::Bits { place, number })
    }

    // Reads the length of an array, where there is one.
    fn length(&mut self) -> Result<Option<Expr>, Stop>
        ensures ok { IfOk result (λ length. Reads (grammar.maybe grammar.brackets)
            (texts.maybe_text said_length length) self.old self.new) }
        ensures err { IfErr result (λ e. Halts (grammar.maybe grammar.brackets ∷ []) self.old e) }
    {
        if !self.is_sign(Sign::OpenBracket) {
            return Ok(None);
        }
        Ok(Some(self.brackets()?))
    }

    // Reads what a field holds, where that is said.
    fn content(&mut self) -> Result<Option<Content>, Stop>
        ensures ok { IfOk result (λ content. Reads (grammar.maybe grammar.content)
            (texts.maybe_text texts.content_text content) self.old self.new) }
        ensures err { IfErr result (λ e. Halts (grammar.maybe grammar.content ∷ []) self.old e) }
    {
        if let Some(place) = self.take_sign(Sign::Arrow) {
            let pool = self.name()?;
            return Ok(Some(Content::Refers { place, pool }));
        }
        if let Some(place) = self.take_word(Keyword::Init) {
            let number = self.number()?;
            return Ok(Some(Content::Init { place, number }));
        }
        Ok(None)
    }
}
