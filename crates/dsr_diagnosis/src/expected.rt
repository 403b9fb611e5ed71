// What may stand at a place of a text. Each token is tried there, and read: it may stand there if
// nothing is refused before what is behind it.
ghost use Rattle.std.specs.Prelude.{◌≡◌, IfOk};

use dsr_ir::NoMemory;
use dsr_lexer::{keyword_bytes, sign_bytes};
use dsr_parse::{SyntaxFault, parse};
use dsr_passages::part;
use dsr_tree::{Keyword, Sign};
use dsr_wording::Text;
use std::alloc::Global;

const KEYWORDS: &[Keyword] = &[
    Keyword::Version,
    Keyword::Order,
    Keyword::Little,
    Keyword::Big,
    Keyword::Structure,
    Keyword::Extends,
    Keyword::Fixed,
    Keyword::U8,
    Keyword::U16,
    Keyword::U32,
    Keyword::U64,
    Keyword::Bits,
    Keyword::Init,
    Keyword::Skip,
    Keyword::Pool,
    Keyword::Slot,
    Keyword::At,
    Keyword::Codes,
    Keyword::Step,
    Keyword::None,
    Keyword::Set,
    Keyword::Of,
    Keyword::As,
    Keyword::Except,
    Keyword::Relation,
    Keyword::Head,
    Keyword::Number,
    Keyword::Fresh,
    Keyword::Avoid,
    Keyword::Rule,
    Keyword::In,
    Keyword::When,
    Keyword::And,
    Keyword::Legal,
    Keyword::Illegal,
    Keyword::Some,
    Keyword::Constraint,
    Keyword::Forall,
    Keyword::Or,
    Keyword::Not,
    Keyword::Given,
    Keyword::Size,
];

// The signs but those of expressions, which are told in one word.
const SIGNS: &[Sign] = &[
    Sign::Semicolon,
    Sign::Colon,
    Sign::Comma,
    Sign::Dot,
    Sign::OpenBrace,
    Sign::CloseBrace,
    Sign::OpenBracket,
    Sign::CloseBracket,
    Sign::OpenParenthesis,
    Sign::CloseParenthesis,
    Sign::Arrow,
    Sign::Gives,
    Sign::Equal,
    Sign::Differs,
    Sign::Less,
    Sign::AtMost,
    Sign::Greater,
    Sign::AtLeast,
];

/// What may stand at a place.
#[derive(Drop)]
pub struct Expected {
    pub keywords: Vec<Keyword>,
    pub signs: Vec<Sign>,
    pub name: bool,
    pub number: bool,
    /// One of the signs of expressions, which stand in the same places.
    pub operator: bool,
    /// The end of the text.
    pub end: bool,
}

// The place at which a text is refused by its syntax; none where it isn't.
fn refused_at(alloc: Global, text: &[u8]) -> Result<Option<u64>, NoMemory> {
    match parse(alloc, text) {
        Ok(_) => Ok(None),
        Err(SyntaxFault::Token(place)) => Ok(Some(place)),
        Err(SyntaxFault::Expected(place)) => Ok(Some(place)),
        Err(SyntaxFault::Limit(place)) => Ok(Some(place)),
        Err(SyntaxFault::NoMemory) => Err(NoMemory),
    }
}

// Whether a token of this spelling may stand at the end of a text, which is left as it was.
fn may_follow(alloc: Global, text: &mut Vec<u8>, spelling: &[u8]) -> Result<bool, NoMemory>
    ensures { IfOk result (λ _. text.new.items ≡ text.old.items) }
{
    let len = text.len();
    text.extend_from_slice(spelling)?;
    let refused = refused_at(alloc, text)?;
    text.truncate(len);
    Ok(match refused {
        Some(place) => place > len as u64,
        None => true,
    })
}

fn keywords_behind(
    alloc: Global,
    text: &mut Vec<u8>,
    second: bool,
) -> Result<Vec<Keyword>, NoMemory> {
    let mut keywords = Vec::new(alloc);
    for keyword in KEYWORDS {
        let is_one = second || *keyword != Keyword::Except;
        if is_one && may_follow(alloc, text, keyword_bytes(*keyword))? {
            keywords.push(*keyword)?;
        }
    }
    Ok(keywords)
}

fn signs_behind(alloc: Global, text: &mut Vec<u8>) -> Result<Vec<Sign>, NoMemory> {
    let mut signs = Vec::new(alloc);
    for sign in SIGNS {
        if may_follow(alloc, text, sign_bytes(*sign))? {
            signs.push(*sign)?;
        }
    }
    Ok(signs)
}

// Which kinds of tokens may stand behind a text, whatever their spelling.
#[derive(Clone, Copy)]
struct Kinds {
    name: bool,
    number: bool,
    operator: bool,
}

fn kinds_behind(alloc: Global, text: &mut Vec<u8>) -> Result<Kinds, NoMemory> {
    let name = may_follow(alloc, text, b"a")?;
    let number = may_follow(alloc, text, b"1")?;
    let operator = may_follow(alloc, text, b"+")?;
    Ok(Kinds {
        name,
        number,
        operator,
    })
}

fn expected_behind(alloc: Global, front: &mut Vec<u8>, second: bool) -> Result<Expected, NoMemory> {
    let kinds = kinds_behind(alloc, front)?;
    let end = refused_at(alloc, front)?.is_none();
    let signs = signs_behind(alloc, front)?;
    let keywords = keywords_behind(alloc, front, second)?;
    Ok(Expected {
        keywords,
        signs,
        name: kinds.name,
        number: kinds.number,
        operator: kinds.operator,
        end,
    })
}

/// What may stand behind the first bytes of a text, which end before a token.
pub fn expected_at(
    alloc: Global,
    text: &[u8],
    place: usize,
    second: bool,
) -> Result<Expected, NoMemory> {
    let mut front = Vec::from_slice(alloc, part(text, 0, place))?;
    front.push(b'\n')?;
    expected_behind(alloc, &mut front, second)
}

impl Expected {
    pub fn has_sign(&self, sign: Sign) -> bool {
        self.signs.contains(&sign)
    }

    pub fn has_keyword(&self, keyword: Keyword) -> bool {
        self.keywords.contains(&keyword)
    }
}

// What may stand at a place, as a part of a sentence that lists so many things.
#[derive(Drop)]
struct Listing {
    text: Text,
    number: usize,
    count: usize,
}

impl Listing {
    // Appends what stands before the next thing.
    fn begin(&mut self) {
        if self.number > 0 {
            let is_last = self.number.saturating_add(1) == self.count;
            self.text.push(if is_last { " or " } else { ", " });
        }
        self.number = self.number.saturating_add(1);
    }

    // Adds a thing that may stand there.
    fn add(&mut self, may_stand: bool, thing: &str) {
        if may_stand {
            self.begin();
            self.text.push(thing);
        }
    }

    // Adds a word or a sign in quotes.
    fn quote(&mut self, spelling: &[u8]) {
        self.begin();
        self.text.push("`");
        self.text.name(spelling);
        self.text.push("`");
    }
}

// How many things may stand at a place.
fn count_of(expected: &Expected) -> usize {
    let mut count = expected.keywords.len().saturating_add(expected.signs.len());
    for may_stand in [
        expected.name,
        expected.number,
        expected.operator,
        expected.end,
    ] {
        if may_stand {
            count = count.saturating_add(1);
        }
    }
    count
}

/// What may stand at a place, in words.
pub fn in_words(alloc: Global, expected: &Expected) -> Text {
    let mut text = Text::new(alloc);
    text.push("expected ");
    let mut listing = Listing {
        text,
        number: 0,
        count: count_of(expected),
    };
    listing.add(expected.name, "a name");
    listing.add(expected.number, "a number");
    for keyword in &expected.keywords {
        listing.quote(keyword_bytes(*keyword));
    }
    for sign in &expected.signs {
        listing.quote(sign_bytes(*sign));
    }
    listing.add(expected.operator, "an operator");
    listing.add(expected.end, "the end of the text");
    listing.text
}
