// Tokens, written behind a text with a space before each.
ghost use Rattle.std.specs.Prelude.{◌≡◌, ◌∷◌, ◌++◌, OnOk};
ghost use Rattle.dsr_tree.specs.declared.tokens.Token.TheVariants as token;
ghost use Rattle.dsr_syntax_theory.specs.TreeTexts.{word, mark, name_text, number_text};
ghost use Rattle.dsr_print.specs.Writing.{Adds, Begins, Ends};

use dsr_ir::NoMemory;
use dsr_lexer::{keyword_bytes, sign_bytes};
use dsr_tree::{Keyword, PlacedName, PlacedNumber, Sign};
use itoa::Buffer;

// The keyword that begins a line.
pub fn begin_line(text: &mut Vec<u8>, keyword: Keyword) -> Result<(), NoMemory>
    ensures { OnOk result (Begins (token.Keyword keyword) text.old.items text.new.items) }
{
    Ok(text.extend_from_slice(keyword_bytes(keyword))?)
}

pub fn end_line(text: &mut Vec<u8>) -> Result<(), NoMemory>
    ensures { OnOk result (Ends text.old.items text.new.items) }
{
    Ok(text.push(b'\n')?)
}

// A space and the bytes of a token.
fn add_spelling(text: &mut Vec<u8>, bytes: &[u8]) -> Result<(), NoMemory>
    ensures { OnOk result (text.new.items ≡ text.old.items ++ 32 ∷ bytes.now) }
{
    text.push(b' ')?;
    Ok(text.extend_from_slice(bytes)?)
}

pub fn add_keyword(text: &mut Vec<u8>, keyword: Keyword) -> Result<(), NoMemory>
    ensures { OnOk result (Adds (word keyword) text.old.items text.new.items) }
{
    add_spelling(text, keyword_bytes(keyword))
}

pub fn add_sign(text: &mut Vec<u8>, sign: Sign) -> Result<(), NoMemory>
    ensures { OnOk result (Adds (mark sign) text.old.items text.new.items) }
{
    add_spelling(text, sign_bytes(sign))
}

pub fn add_name(text: &mut Vec<u8>, name: &PlacedName) -> Result<(), NoMemory>
    ensures { OnOk result (Adds (name_text name.now) text.old.items text.new.items) }
{
    add_spelling(text, name.name.bytes())
}

pub fn add_number(text: &mut Vec<u8>, number: PlacedNumber) -> Result<(), NoMemory>
    ensures { OnOk result (Adds (number_text number) text.old.items text.new.items) }
{
    let mut digits = Buffer::new();
    add_spelling(text, digits.format(number.number).as_bytes())
}
