// The line of a rule.
ghost use Rattle.std.specs.Prelude.{◌≡◌, OnOk};
ghost use Rattle.dsr_syntax_theory.specs.Phrases.{in_turn};
ghost use Rattle.dsr_syntax_theory.specs.TreeTexts.{guard_text, guards_text, inclusion_text, index_source_text, index_text, maybe_text, member_part_text, member_text, more_guard_text, path_text, premise_text, span_text, term_text, test_word};
ghost use Rattle.dsr_print.specs.Writing.{Adds};

use crate::atoms::{add_compare, add_var};
use crate::lines::Declaration;
use crate::marks::{add_keyword, add_name, add_number, add_sign, begin_line, end_line};
use dsr_ir::NoMemory;
use dsr_tree::{
    Guard, Guards, Inclusion, Index, Keyword, Member, MemberPart, Path, PlacedName, Premise,
    RefTest, Rule, Sign, Span, Term,
};

fn add_some_index(text: &mut Vec<u8>, index: &PlacedName) -> Result<(), NoMemory>
    ensures { OnOk result (Adds (index_text index.now) text.old.items text.new.items) }
{
    add_sign(text, Sign::OpenBracket)?;
    add_name(text, index)?;
    add_sign(text, Sign::CloseBracket)
}

fn add_index(text: &mut Vec<u8>, index: &Option<PlacedName>) -> Result<(), NoMemory>
    ensures { OnOk result (Adds (maybe_text index_text index.now) text.old.items text.new.items) }
{
    match index {
        None => Ok(()),
        Some(index) => add_some_index(text, index),
    }
}

fn add_path(text: &mut Vec<u8>, path: &Path) -> Result<(), NoMemory>
    ensures { OnOk result (Adds (path_text path.now) text.old.items text.new.items) }
{
    add_var(text, &path.var)?;
    add_sign(text, Sign::Dot)?;
    add_name(text, &path.field)?;
    add_index(text, &path.index)
}

fn add_premise(text: &mut Vec<u8>, premise: &Premise) -> Result<(), NoMemory>
    ensures { OnOk result (Adds (premise_text premise.now) text.old.items text.new.items) }
{
    match premise {
        Premise::Head { .. } => add_keyword(text, Keyword::Head),
        Premise::Member { name, set } => {
            add_name(text, name)?;
            add_keyword(text, Keyword::In)?;
            add_name(text, set)
        }
    }
}

fn add_index_source(text: &mut Vec<u8>, index: &Index) -> Result<(), NoMemory>
    ensures { OnOk result (Adds (index_source_text index.now) text.old.items text.new.items) }
{
    match index {
        Index::Pool { pool, .. } => {
            add_keyword(text, Keyword::Pool)?;
            add_name(text, pool)
        }
        Index::Array(field) => add_name(text, field),
    }
}

fn add_some_span(text: &mut Vec<u8>, span: &Span) -> Result<(), NoMemory>
    ensures { OnOk result (Adds (span_text span.now) text.old.items text.new.items) }
{
    add_sign(text, Sign::Comma)?;
    add_name(text, &span.name)?;
    add_keyword(text, Keyword::In)?;
    add_index_source(text, &span.index)
}

fn add_span(text: &mut Vec<u8>, span: &Option<Span>) -> Result<(), NoMemory>
    ensures { OnOk result (Adds (maybe_text span_text span.now) text.old.items text.new.items) }
{
    match span {
        None => Ok(()),
        Some(span) => add_some_span(text, span),
    }
}

fn keyword_of(test: RefTest) -> Keyword
    ensures { result ≡ test_word test }
{
    match test {
        RefTest::Legal => Keyword::Legal,
        RefTest::Illegal => Keyword::Illegal,
        RefTest::None => Keyword::None,
        RefTest::Some => Keyword::Some,
    }
}

fn add_guard(text: &mut Vec<u8>, guard: &Guard) -> Result<(), NoMemory>
    ensures { OnOk result (Adds (guard_text guard.now) text.old.items text.new.items) }
{
    match guard {
        Guard::Tested { test, path, .. } => {
            add_keyword(text, keyword_of(*test))?;
            add_sign(text, Sign::OpenParenthesis)?;
            add_path(text, path)?;
            add_sign(text, Sign::CloseParenthesis)
        }
        Guard::Compared {
            path,
            compare,
            number,
        } => {
            add_path(text, path)?;
            add_compare(text, *compare)?;
            add_number(text, *number)
        }
    }
}

fn add_more_guards(text: &mut Vec<u8>, guards: &[Guard]) -> Result<(), NoMemory>
    ensures { OnOk result (Adds (in_turn more_guard_text guards.now) text.old.items text.new.items) }
{
    for guard in guards {
        add_keyword(text, Keyword::And)?;
        add_guard(text, guard)?;
    }
    Ok(())
}

fn add_some_guards(text: &mut Vec<u8>, guards: &Guards) -> Result<(), NoMemory>
    ensures { OnOk result (Adds (guards_text guards.now) text.old.items text.new.items) }
{
    add_keyword(text, Keyword::When)?;
    add_guard(text, &guards.first)?;
    add_more_guards(text, guards.rest.items())
}

fn add_guards(text: &mut Vec<u8>, guards: &Option<Guards>) -> Result<(), NoMemory>
    ensures { OnOk result (Adds (maybe_text guards_text guards.now) text.old.items text.new.items) }
{
    match guards {
        None => Ok(()),
        Some(guards) => add_some_guards(text, guards),
    }
}

fn add_term(text: &mut Vec<u8>, term: &Term) -> Result<(), NoMemory>
    ensures { OnOk result (Adds (term_text term.now) text.old.items text.new.items) }
{
    match term {
        Term::Head { .. } => add_keyword(text, Keyword::Head),
        Term::Named { name, index } => {
            add_name(text, name)?;
            add_index(text, index)
        }
    }
}

fn add_some_part(text: &mut Vec<u8>, part: &MemberPart) -> Result<(), NoMemory>
    ensures { OnOk result (Adds (member_part_text part.now) text.old.items text.new.items) }
{
    match part {
        MemberPart::Field { field, index } => {
            add_sign(text, Sign::Dot)?;
            add_name(text, field)?;
            add_index(text, index)
        }
        MemberPart::Slot(index) => add_some_index(text, index),
    }
}

fn add_part(text: &mut Vec<u8>, part: &Option<MemberPart>) -> Result<(), NoMemory>
    ensures { OnOk result (Adds (maybe_text member_part_text part.now) text.old.items text.new.items) }
{
    match part {
        None => Ok(()),
        Some(part) => add_some_part(text, part),
    }
}

fn add_member(text: &mut Vec<u8>, member: &Member) -> Result<(), NoMemory>
    ensures { OnOk result (Adds (member_text member.now) text.old.items text.new.items) }
{
    add_var(text, &member.var)?;
    add_part(text, &member.part)
}

fn add_inclusion(text: &mut Vec<u8>, inclusion: &Inclusion) -> Result<(), NoMemory>
    ensures { OnOk result (Adds (inclusion_text inclusion.now) text.old.items text.new.items) }
{
    match inclusion {
        Inclusion::Pair {
            term,
            path,
            relation,
            ..
        } => {
            add_sign(text, Sign::Less)?;
            add_term(text, term)?;
            add_sign(text, Sign::Comma)?;
            add_path(text, path)?;
            add_sign(text, Sign::Greater)?;
            add_keyword(text, Keyword::In)?;
            add_name(text, relation)
        }
        Inclusion::Member { member, set } => {
            add_member(text, member)?;
            add_keyword(text, Keyword::In)?;
            add_name(text, set)
        }
    }
}

impl Declaration for Rule {
    ghost use Rattle.dsr_syntax_theory.specs.TreeTexts.{rule_text};

    ghost phrase = { rule_text };

    fn add_line(&self, text: &mut Vec<u8>) -> Result<(), NoMemory> {
        begin_line(text, Keyword::Rule)?;
        add_premise(text, &self.premise)?;
        add_span(text, &self.span)?;
        add_guards(text, &self.guards)?;
        add_sign(text, Sign::Gives)?;
        add_inclusion(text, &self.inclusion)?;
        add_sign(text, Sign::Semicolon)?;
        end_line(text)
    }
}
