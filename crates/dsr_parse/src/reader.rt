// The tokens of a text, read one after the other.
ghost use Rattle.std.specs.Prelude.{◌≡◌, ◌<◌, ◌≤◌, ◌+◌, true, false, length, Ok, Err, IfOk, IfErr, IfSome, IfNone, OnOk, ◌∷◌, []};
ghost use Rattle.dsr_tree.specs.declared.tokens.Token.TheVariants as tokens;
ghost use Rattle.dsr_syntax_theory.specs.Grammar as grammar;
ghost use Rattle.dsr_syntax_theory.specs.Phrases.{◌▸◌};
ghost use Rattle.dsr_syntax_theory.specs.Syntax.{One, Then, free, starts, counted, opening, a_word, a_mark, a_name, a_number, a_version};
ghost use Rattle.dsr_syntax_theory.specs.TreeTexts as texts;
ghost use Rattle.dsr_parse.specs.Machine.{accepts};
ghost use Rattle.dsr_parse.specs.Reading.{Reads, Halts, is_next};
ghost use Rattle.dsr_parse.specs.declared.reader.Stop.TheVariants as stop;

mod constraints;
mod declarations;
mod expressions;
mod formulas;
mod rules;
mod structures;

use dsr_ir::{NoMemory, TryClone};
use dsr_tree::{Keyword, Lexeme, PlacedName, PlacedNumber, Sign, Token};
use std::alloc::{AllocFailed, Global};
use std::marker::Model;

const OPERATOR_LIMIT: u64 = 32;

const LITERAL_LIMIT: u64 = 128;

const DEPTH_LIMIT: u64 = 32;

// Why no tree is read, with the number of tokens that are left.
#[derive(Clone, Copy)]
pub enum Stop {
    NoMemory,
    // The next token continues no text of the grammar.
    Expected(usize),
    // The next token goes over a limit.
    Limit(usize),
}

impl From<NoMemory> for Stop {
    ghost use Rattle.dsr_parse.specs.declared.reader.Stop.TheVariants as stop;

    ghost from_gives = { λ _ e. e ≡ stop.NoMemory };

    fn from(_: NoMemory) -> Self {
        Stop::NoMemory
    }
}

impl<T: Drop> From<AllocFailed<T>> for Stop {
    ghost use Rattle.dsr_parse.specs.declared.reader.Stop.TheVariants as stop;

    ghost from_gives = { λ _ e. e ≡ stop.NoMemory };

    fn from(_: AllocFailed<T>) -> Self {
        Stop::NoMemory
    }
}

// The tokens that are left, and how many operators or atoms were read in the expression or the
// formula.
#[derive(Drop)]
pub struct Reader<'a> {
    alloc: Global,
    rest: &'a [Lexeme],
    counted: u64,
}

impl<'a> Model for Reader<'a> {
    ghost use Rattle.dsr_parse.specs.Reading.{Standing};

    ghost Value = { Standing };

    ghost view = { λ r. record { rest = r.rest.now; counted = r.counted } };
}

// What was read before, with what is read behind it. All that a failure has to drop is dropped
// here.
fn both<A: Drop, B: Drop>(first: A, second: Result<B, Stop>) -> Result<(A, B), Stop>
    ensures ok { IfOk result (λ r. (r.0 ≡ first) × (second ≡ Ok r.1)) }
    ensures err { IfErr result (λ e. second ≡ Err e) }
{
    match second {
        Ok(second) => Ok((first, second)),
        Err(stop) => Err(stop),
    }
}

fn is_keyword(token: &Token, keyword: Keyword) -> bool
    ensures same { result ≡ true → token.now ≡ tokens.Keyword keyword }
    ensures tested { result ≡ accepts (a_word keyword) token.now }
{
    match token {
        Token::Keyword(found) => *found == keyword,
        _ => false,
    }
}

fn is_mark(token: &Token, sign: Sign) -> bool
    ensures same { result ≡ true → token.now ≡ tokens.Sign sign }
    ensures tested { result ≡ accepts (a_mark sign) token.now }
{
    match token {
        Token::Sign(found) => *found == sign,
        _ => false,
    }
}

impl<'a> Reader<'a> {
    pub fn new(alloc: Global, lexemes: &'a [Lexeme]) -> Reader<'a>
        ensures rest { result.rest ≡ lexemes.now }
        ensures counted { result.counted ≡ 0 }
    {
        Reader {
            alloc,
            rest: lexemes,
            counted: 0,
        }
    }

    // How many tokens are left.
    pub fn left(&self) -> usize
        ensures { result ≡ length self.now.rest }
    {
        self.rest.len()
    }

    // The fault of a token that continues no text.
    fn expected(&self) -> Stop
        ensures { result ≡ stop.Expected (length self.now.rest) }
    {
        Stop::Expected(self.rest.len())
    }

    fn is_word(&self, keyword: Keyword) -> bool
        ensures { result ≡ is_next (grammar.word keyword) self.now.rest }
    {
        match self.rest.first() {
            Some(lexeme) => is_keyword(&lexeme.token, keyword),
            None => false,
        }
    }

    fn is_sign(&self, sign: Sign) -> bool
        ensures { result ≡ is_next (grammar.mark sign) self.now.rest }
    {
        match self.rest.first() {
            Some(lexeme) => is_mark(&lexeme.token, sign),
            None => false,
        }
    }

    fn is_number(&self) -> bool
        ensures { result ≡ is_next grammar.number self.now.rest }
    {
        match self.rest.first() {
            Some(lexeme) => matches!(&lexeme.token, Token::Number(_)),
            None => false,
        }
    }

    fn is_name(&self) -> bool
        ensures { result ≡ is_next grammar.name self.now.rest }
    {
        match self.rest.first() {
            Some(lexeme) => matches!(&lexeme.token, Token::Name(_)),
            None => false,
        }
    }

    // Reads a keyword where it is next, and gives its place.
    fn take_word(&mut self, keyword: Keyword) -> Option<u64>
        ensures some { IfSome result
            (λ place. Reads (grammar.word keyword)
            (texts.word_at keyword place) self.old self.new) }
        ensures next { IfSome result (λ place. is_next (grammar.word keyword) self.old.rest ≡ true) }
        ensures none { IfNone result (is_next (grammar.word keyword) self.old.rest ≡ false) }
        ensures same { IfNone result (self.new ≡ self.old) }
    {
        match self.rest.split_first() {
            Some((lexeme, rest)) if is_keyword(&lexeme.token, keyword) => {
                self.rest = rest;
                Some(lexeme.place)
            }
            _ => None,
        }
    }

    // Reads a sign where it is next, and gives its place.
    fn take_sign(&mut self, sign: Sign) -> Option<u64>
        ensures some { IfSome result
            (λ place. Reads (grammar.mark sign) (texts.mark_at sign place) self.old self.new) }
        ensures next { IfSome result (λ place. is_next (grammar.mark sign) self.old.rest ≡ true) }
        ensures none { IfNone result (is_next (grammar.mark sign) self.old.rest ≡ false) }
        ensures same { IfNone result (self.new ≡ self.old) }
    {
        match self.rest.split_first() {
            Some((lexeme, rest)) if is_mark(&lexeme.token, sign) => {
                self.rest = rest;
                Some(lexeme.place)
            }
            _ => None,
        }
    }

    // Reads a keyword, and gives its place.
    fn word(&mut self, keyword: Keyword) -> Result<u64, Stop>
        ensures ok { IfOk result (λ place. Reads (grammar.word keyword)
            (texts.word_at keyword place) self.old self.new) }
        ensures err { IfErr result (λ e. Halts (grammar.word keyword ∷ []) self.old e) }
    {
        match self.take_word(keyword) {
            Some(place) => Ok(place),
            None => Err(self.expected()),
        }
    }

    // Reads a sign, and gives its place.
    fn sign(&mut self, sign: Sign) -> Result<u64, Stop>
        ensures ok { IfOk result (λ place. Reads (grammar.mark sign)
            (texts.mark_at sign place) self.old self.new) }
        ensures err { IfErr result (λ e. Halts (grammar.mark sign ∷ []) self.old e) }
    {
        match self.take_sign(sign) {
            Some(place) => Ok(place),
            None => Err(self.expected()),
        }
    }

    fn name(&mut self) -> Result<PlacedName, Stop>
        ensures ok { IfOk result (λ name. Reads grammar.name (texts.name_text name) self.old self.new) }
        ensures err { IfErr result (λ e. Halts (grammar.name ∷ []) self.old e) }
    {
        let Some((lexeme, rest)) = self.rest.split_first() else {
            return Err(self.expected());
        };
        match &lexeme.token {
            Token::Name(name) => {
                let name = name.clone(self.alloc)?;
                self.rest = rest;
                Ok(PlacedName {
                    name,
                    place: lexeme.place,
                })
            }
            _ => Err(self.expected()),
        }
    }

    // Reads a sign behind what was read before, and hands that on.
    fn ended<T: Drop>(&mut self, read: T, sign: Sign) -> Result<T, Stop>
        ensures same { IfOk result (λ r. r ≡ read) }
        ensures ok { OnOk result (Reads (grammar.mark sign) (texts.mark sign) self.old self.new) }
        ensures err { IfErr result (λ e. Halts (grammar.mark sign ∷ []) self.old e) }
    {
        match self.take_sign(sign) {
            Some(_) => Ok(read),
            None => Err(self.expected()),
        }
    }

    // Reads a name and the sign behind it.
    fn name_before(&mut self, sign: Sign) -> Result<PlacedName, Stop>
        ensures ok { IfOk result (λ name. Reads (Then grammar.name (grammar.mark sign))
            (texts.name_text name ▸ texts.mark sign) self.old self.new) }
        ensures err { IfErr result
            (λ e. Halts (Then grammar.name (grammar.mark sign) ∷ []) self.old e) }
    {
        let name = self.name()?;
        self.ended(name, sign)
    }

    // Reads a keyword and the name behind it.
    fn name_behind(&mut self, keyword: Keyword) -> Result<PlacedName, Stop>
        ensures ok { IfOk result (λ name. Reads (Then (grammar.word keyword) grammar.name)
            (texts.word keyword ▸ texts.name_text name) self.old self.new) }
        ensures err { IfErr result
            (λ e. Halts (Then (grammar.word keyword) grammar.name ∷ []) self.old e) }
    {
        self.word(keyword)?;
        self.name()
    }

    fn number(&mut self) -> Result<PlacedNumber, Stop>
        ensures ok { IfOk result (λ number. Reads grammar.number (texts.number_text number) self.old self.new) }
        ensures err { IfErr result (λ e. Halts (grammar.number ∷ []) self.old e) }
    {
        let Some((lexeme, rest)) = self.rest.split_first() else {
            return Err(self.expected());
        };
        match lexeme.token {
            Token::Number(number) => {
                self.rest = rest;
                Ok(PlacedNumber {
                    number,
                    place: lexeme.place,
                })
            }
            _ => Err(self.expected()),
        }
    }

    // Reads the number of a version.
    fn version_number(&mut self) -> Result<PlacedNumber, Stop>
        ensures ok { IfOk result (λ number. Reads (One free a_version)
            (texts.number_text number) self.old self.new) }
        ensures err { IfErr result (λ e. Halts (One free a_version ∷ []) self.old e) }
    {
        let Some((lexeme, rest)) = self.rest.split_first() else {
            return Err(self.expected());
        };
        match lexeme.token {
            Token::Number(number) if number == 1 || number == 2 => {
                self.rest = rest;
                Ok(PlacedNumber {
                    number,
                    place: lexeme.place,
                })
            }
            _ => Err(self.expected()),
        }
    }

    // Counts the next token.
    fn count(&mut self, limit: u64) -> Result<(), Stop>
        requires { limit ≤ 128 }
        ensures below { OnOk result (self.old.counted < limit) }
        ensures rest { OnOk result (self.new.rest ≡ self.old.rest) }
        ensures counted { OnOk result (self.new.counted ≡ self.old.counted + 1) }
        ensures past { IfErr result
            (λ e. (limit ≤ self.old.counted) × (e ≡ stop.Limit (length self.old.rest))) }
    {
        if self.counted >= limit {
            return Err(Stop::Limit(self.rest.len()));
        }
        self.counted += 1;
        Ok(())
    }

    // Reads an operator of an expression.
    fn operator(&mut self, sign: Sign) -> Result<(), Stop>
        ensures ok { OnOk result (Reads (grammar.operator sign) (texts.mark sign) self.old self.new) }
        ensures err { IfErr result (λ e. Halts (grammar.operator sign ∷ []) self.old e) }
    {
        if !self.is_sign(sign) {
            return Err(self.expected());
        }
        self.count(OPERATOR_LIMIT)?;
        self.sign(sign)?;
        Ok(())
    }

    // Reads a keyword with which an atom begins.
    fn literal_word(&mut self, keyword: Keyword) -> Result<u64, Stop>
        ensures ok { IfOk result (λ place. Reads (One grammar.literal (a_word keyword))
            (texts.word_at keyword place) self.old self.new) }
        ensures err { IfErr result (λ e. Halts (One grammar.literal (a_word keyword) ∷ []) self.old e) }
    {
        if !self.is_word(keyword) {
            return Err(self.expected());
        }
        self.count(LITERAL_LIMIT)?;
        self.word(keyword)
    }

    // Reads a sign with which an atom begins.
    fn literal_sign(&mut self, sign: Sign) -> Result<u64, Stop>
        ensures ok { IfOk result (λ place. Reads (One grammar.literal (a_mark sign))
            (texts.mark_at sign place) self.old self.new) }
        ensures err { IfErr result (λ e. Halts (One grammar.literal (a_mark sign) ∷ []) self.old e) }
    {
        if !self.is_sign(sign) {
            return Err(self.expected());
        }
        self.count(LITERAL_LIMIT)?;
        self.sign(sign)
    }

    // Reads a name with which an atom begins.
    fn literal_name(&mut self) -> Result<PlacedName, Stop>
        ensures ok { IfOk result (λ name. Reads (One grammar.literal a_name)
            (texts.name_text name) self.old self.new) }
        ensures err { IfErr result (λ e. Halts (One grammar.literal a_name ∷ []) self.old e) }
    {
        if !self.is_name() {
            return Err(self.expected());
        }
        self.count(LITERAL_LIMIT)?;
        self.name()
    }

    // Reads a keyword that opens a construct inside so many others.
    fn opening_word(&mut self, keyword: Keyword, depth: u64) -> Result<u64, Stop>
        ensures below { OnOk result (depth < 32) }
        ensures ok { IfOk result (λ place. Reads (One (opening depth 32) (a_word keyword))
            (texts.word_at keyword place) self.old self.new) }
        ensures err { IfErr result (λ e. Halts (One (opening depth 32) (a_word keyword) ∷ []) self.old e) }
    {
        if !self.is_word(keyword) {
            return Err(self.expected());
        }
        if depth >= DEPTH_LIMIT {
            return Err(Stop::Limit(self.rest.len()));
        }
        self.word(keyword)
    }

    // Reads a sign that opens a construct inside so many others.
    fn opening_sign(&mut self, sign: Sign, depth: u64) -> Result<u64, Stop>
        ensures below { OnOk result (depth < 32) }
        ensures ok { IfOk result (λ place. Reads (One (opening depth 32) (a_mark sign))
            (texts.mark_at sign place) self.old self.new) }
        ensures err { IfErr result (λ e. Halts (One (opening depth 32) (a_mark sign) ∷ []) self.old e) }
    {
        if !self.is_sign(sign) {
            return Err(self.expected());
        }
        if depth >= DEPTH_LIMIT {
            return Err(Stop::Limit(self.rest.len()));
        }
        self.sign(sign)
    }

    // Reads a keyword behind which an expression or a formula stands.
    fn starting_word(&mut self, keyword: Keyword) -> Result<u64, Stop>
        ensures ok { IfOk result (λ place. Reads (One starts (a_word keyword))
            (texts.word_at keyword place) self.old self.new) }
        ensures err { IfErr result (λ e. Halts (One starts (a_word keyword) ∷ []) self.old e) }
    {
        match self.take_word(keyword) {
            Some(place) => {
                self.counted = 0;
                Ok(place)
            }
            None => Err(self.expected()),
        }
    }

    // Reads a sign behind which an expression or a formula stands.
    fn starting_sign(&mut self, sign: Sign) -> Result<u64, Stop>
        ensures ok { IfOk result (λ place. Reads (One starts (a_mark sign))
            (texts.mark_at sign place) self.old self.new) }
        ensures err { IfErr result (λ e. Halts (One starts (a_mark sign) ∷ []) self.old e) }
    {
        match self.take_sign(sign) {
            Some(place) => {
                self.counted = 0;
                Ok(place)
            }
            None => Err(self.expected()),
        }
    }
}
