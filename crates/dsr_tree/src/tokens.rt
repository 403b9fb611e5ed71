// The tokens of a specification's text.
use dsr_ir::Name;

/// A word that is no name.
#[derive(Clone, Copy, PartialEq, Eq)]
pub enum Keyword {
    Version,
    Order,
    Little,
    Big,
    Structure,
    Extends,
    Fixed,
    U8,
    U16,
    U32,
    U64,
    Bits,
    Init,
    Skip,
    Pool,
    Slot,
    At,
    Codes,
    Step,
    None,
    Set,
    Of,
    As,
    Except,
    Relation,
    Head,
    Number,
    Fresh,
    Avoid,
    Rule,
    In,
    When,
    And,
    Legal,
    Illegal,
    Some,
    Constraint,
    Forall,
    Or,
    Not,
    Given,
    Size,
}

/// A token of one or two marks.
#[derive(Clone, Copy, PartialEq, Eq)]
pub enum Sign {
    Semicolon,
    Colon,
    Comma,
    Dot,
    OpenBrace,
    CloseBrace,
    OpenBracket,
    CloseBracket,
    OpenParenthesis,
    CloseParenthesis,
    /// `->`
    Arrow,
    /// `=>`
    Gives,
    Plus,
    Minus,
    Times,
    Over,
    Equal,
    /// `!=`
    Differs,
    Less,
    /// `<=`
    AtMost,
    Greater,
    /// `>=`
    AtLeast,
}

/// A token: a keyword, a name that is no keyword, a number, or a sign.
#[derive(Drop, PartialEq, Eq)]
pub enum Token {
    Keyword(Keyword),
    Name(Name),
    Number(u64),
    Sign(Sign),
}

/// A token with the place of its first byte in the text, counted from 0.
pub struct Lexeme {
    pub token: Token,
    pub place: u64,
}

impl Drop for Lexeme {
    fn drop(self) {
        let Lexeme { token: _, place: _ } = self;
    }
}
