// The line of a structure.
ghost use Rattle.std.specs.Prelude.{OnOk, map, option_map};
ghost use Rattle.dsr_tree.specs.Trees.{expr_shape, field_shape, named_shape};
ghost use Rattle.dsr_syntax_theory.specs.Phrases.{in_turn};
ghost use Rattle.dsr_syntax_theory.specs.TreeTexts.{brackets_text, content_text, field_text, fixed_text, maybe_text, named_field_text, parent_text, width_text};
ghost use Rattle.dsr_print.specs.Writing.{Adds, skipped_text};

use crate::expressions::add_expr;
use crate::lines::Declaration;
use crate::marks::{add_keyword, add_name, add_number, add_sign, begin_line, end_line};
use dsr_ir::NoMemory;
use dsr_tree::{Content, Expr, Field, Keyword, NamedField, PlacedName, Sign, Structure, Width};

fn add_width(text: &mut Vec<u8>, width: Width) -> Result<(), NoMemory>
    ensures { OnOk result (Adds (width_text width) text.old.items text.new.items) }
{
    match width {
        Width::U8 { .. } => add_keyword(text, Keyword::U8),
        Width::U16 { .. } => add_keyword(text, Keyword::U16),
        Width::U32 { .. } => add_keyword(text, Keyword::U32),
        Width::U64 { .. } => add_keyword(text, Keyword::U64),
        Width::Bits { number, .. } => {
            add_keyword(text, Keyword::Bits)?;
            add_number(text, number)
        }
    }
}

pub fn add_brackets(text: &mut Vec<u8>, length: &Expr) -> Result<(), NoMemory>
    ensures { OnOk result (Adds (brackets_text (expr_shape length.now)) text.old.items text.new.items) }
{
    add_sign(text, Sign::OpenBracket)?;
    add_expr(text, length)?;
    add_sign(text, Sign::CloseBracket)
}

fn add_length(text: &mut Vec<u8>, length: &Option<Expr>) -> Result<(), NoMemory>
    ensures { OnOk result (Adds
        (maybe_text brackets_text (option_map expr_shape length.now)) text.old.items
        text.new.items) }
{
    match length {
        None => Ok(()),
        Some(length) => add_brackets(text, length),
    }
}

fn add_content(text: &mut Vec<u8>, content: &Option<Content>) -> Result<(), NoMemory>
    ensures { OnOk result (Adds (maybe_text content_text content.now) text.old.items text.new.items) }
{
    match content {
        None => Ok(()),
        Some(Content::Refers { pool, .. }) => {
            add_sign(text, Sign::Arrow)?;
            add_name(text, pool)
        }
        Some(Content::Init { number, .. }) => {
            add_keyword(text, Keyword::Init)?;
            add_number(text, *number)
        }
    }
}

fn add_fixed(text: &mut Vec<u8>, fixed: Option<u64>) -> Result<(), NoMemory>
    ensures { OnOk result (Adds (maybe_text fixed_text fixed) text.old.items text.new.items) }
{
    match fixed {
        None => Ok(()),
        Some(_) => add_keyword(text, Keyword::Fixed),
    }
}

fn add_named_field(text: &mut Vec<u8>, field: &NamedField) -> Result<(), NoMemory>
    ensures { OnOk result (Adds (named_field_text (named_shape field.now)) text.old.items text.new.items) }
{
    add_fixed(text, field.fixed)?;
    add_width(text, field.width)?;
    add_name(text, &field.name)?;
    add_length(text, &field.length)?;
    add_content(text, &field.content)?;
    add_sign(text, Sign::Semicolon)
}

fn add_skipped(text: &mut Vec<u8>, length: &Expr) -> Result<(), NoMemory>
    ensures { OnOk result (Adds (skipped_text (expr_shape length.now)) text.old.items text.new.items) }
{
    add_keyword(text, Keyword::Skip)?;
    add_expr(text, length)?;
    add_sign(text, Sign::Semicolon)
}

fn add_field(text: &mut Vec<u8>, field: &Field) -> Result<(), NoMemory>
    ensures { OnOk result (Adds (field_text (field_shape field.now)) text.old.items text.new.items) }
{
    match field {
        Field::Named(field) => add_named_field(text, field),
        Field::Skip { length, .. } => add_skipped(text, length),
    }
}

fn add_fields(text: &mut Vec<u8>, fields: &[Field]) -> Result<(), NoMemory>
    ensures { OnOk result (Adds
        (in_turn field_text (map field_shape fields.now)) text.old.items text.new.items) }
{
    for field in fields {
        add_field(text, field)?;
    }
    Ok(())
}

fn add_parent(text: &mut Vec<u8>, parent: &Option<PlacedName>) -> Result<(), NoMemory>
    ensures { OnOk result (Adds (maybe_text parent_text parent.now) text.old.items text.new.items) }
{
    match parent {
        None => Ok(()),
        Some(parent) => {
            add_keyword(text, Keyword::Extends)?;
            add_name(text, parent)
        }
    }
}

impl Declaration for Structure {
    ghost use Rattle.dsr_tree.specs.Trees.{structure_shape};
    ghost use Rattle.dsr_syntax_theory.specs.TreeTexts.{structure_text};

    ghost phrase = { λ s. structure_text (structure_shape s) };

    fn add_line(&self, text: &mut Vec<u8>) -> Result<(), NoMemory> {
        begin_line(text, Keyword::Structure)?;
        add_name(text, &self.name)?;
        add_parent(text, &self.parent)?;
        add_sign(text, Sign::OpenBrace)?;
        add_fields(text, self.fields.items())?;
        add_sign(text, Sign::CloseBrace)?;
        end_line(text)
    }
}
