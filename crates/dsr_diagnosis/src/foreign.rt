// Words and signs of other languages, with what stands for them in this one.
use crate::expected::Expected;
use dsr_tree::Keyword;

const STRUCTURE: &str = "the layout of a record is `structure NAME { .. }`";

const CONSTRAINT: &str = "what has to hold begins with `constraint`";

const NO_UNION: &str =
    "there are no unions: let two structures extend a third one, and read a set `as` each";

const NO_ENUM: &str =
    "there are no enumerations: compare a number with a constant, as `x.kind = 1`";

// Words that are tried where a declaration begins.
const DECLARATIONS: &[(&str, &str)] = &[
    ("struct", STRUCTURE),
    ("class", STRUCTURE),
    ("record", STRUCTURE),
    ("type", STRUCTURE),
    ("typedef", STRUCTURE),
    ("union", NO_UNION),
    ("enum", NO_ENUM),
    ("const", "there are no constants: write the number"),
    ("define", "there are no constants: write the number"),
    (
        "array",
        "a row of records is `pool p : NAME[N] at .. codes .. step .. none ..;`",
    ),
    ("invariant", CONSTRAINT),
    ("assert", CONSTRAINT),
    ("ensure", CONSTRAINT),
];

const ONE_BYTE: &str = "a field of one byte is `u8`";

const TWO_BYTES: &str = "a field of two bytes is `u16`";

const FOUR_BYTES: &str = "a field of four bytes is `u32`";

const EIGHT_BYTES: &str = "a field of eight bytes is `u64`";

const NO_SIGN: &str = "numbers have no sign: a field is of `u8`, `u16`, `u32`, `u64` or `bits N`";

const NO_FRACTION: &str = "there are no fractions: `skip 4` or `skip 8` passes over one";

const NO_RECORD: &str = "no field is a record: write its fields, or a reference to a pool";

// Words that are tried where a field begins.
const FIELDS: &[(&str, &str)] = &[
    ("uint8_t", ONE_BYTE),
    ("uint16_t", TWO_BYTES),
    ("uint32_t", FOUR_BYTES),
    ("uint64_t", EIGHT_BYTES),
    ("uint8", ONE_BYTE),
    ("uint16", TWO_BYTES),
    ("uint32", FOUR_BYTES),
    ("uint64", EIGHT_BYTES),
    ("le16", TWO_BYTES),
    ("le32", FOUR_BYTES),
    ("le64", EIGHT_BYTES),
    ("be16", TWO_BYTES),
    ("be32", FOUR_BYTES),
    ("be64", EIGHT_BYTES),
    ("uchar", ONE_BYTE),
    ("ushort", TWO_BYTES),
    ("uint", FOUR_BYTES),
    ("ulong", EIGHT_BYTES),
    ("char", ONE_BYTE),
    ("byte", ONE_BYTE),
    ("short", TWO_BYTES),
    ("int", FOUR_BYTES),
    ("long", EIGHT_BYTES),
    ("size_t", EIGHT_BYTES),
    (
        "word",
        "a field is of `u8`, `u16`, `u32`, `u64` or `bits N`",
    ),
    (
        "unsigned",
        "a field is of `u8`, `u16`, `u32`, `u64` or `bits N`",
    ),
    ("signed", NO_SIGN),
    ("int8_t", NO_SIGN),
    ("int16_t", NO_SIGN),
    ("int32_t", NO_SIGN),
    ("int64_t", NO_SIGN),
    ("i8", NO_SIGN),
    ("i16", NO_SIGN),
    ("i32", NO_SIGN),
    ("i64", NO_SIGN),
    ("bool", "a single bit is `bits 1`, a byte `u8`"),
    ("bit", "a single bit is `bits 1`"),
    ("float", NO_FRACTION),
    ("double", NO_FRACTION),
    ("struct", NO_RECORD),
    ("union", NO_UNION),
    ("enum", NO_ENUM),
    ("const", "a field that the layout reads is `fixed`"),
    ("pad", "bytes that belong to no field are `skip N`"),
];

// Words that are tried where a rule's conditions begin.
const CONDITIONS: &[(&str, &str)] = &[
    ("if", "a rule's conditions stand behind `when`"),
    ("where", "a rule's conditions stand behind `when`"),
    ("with", "a rule's conditions stand behind `when`"),
];

// Words that are tried between the parts of a formula.
const CONNECTIVES: &[(&str, &str)] = &[
    ("implies", "`a implies b` is `not a or b`"),
    ("iff", "`a iff b` is `a and b or not a and not b`"),
    ("xor", "`a xor b` is `a and not b or not a and b`"),
];

// Words that are tried behind the pool of a set.
const VIEWS: &[(&str, &str)] = &[
    (
        "except",
        "a complement is of version 2: begin the text with `version 2`",
    ),
    (
        "without",
        "a complement is `set F of p except U`, in version 2",
    ),
    ("is", "a set is read by another structure with `as`"),
];

// Words that are tried for numbers.
const NUMBERS: &[(&str, &str)] = &[
    ("null", "that there is no reference is `none(x.next)`"),
    ("NULL", "that there is no reference is `none(x.next)`"),
    ("nil", "that there is no reference is `none(x.next)`"),
    ("true", "write 1"),
    ("false", "write 0"),
];

// Words that are tried where a formula begins, which are read as variables there.
const PHRASES: &[(&str, &str)] = &[
    ("for", "a constraint of each member is `forall x in S : ..`"),
    (
        "foreach",
        "a constraint of each member is `forall x in S : ..`",
    ),
    ("all", "a constraint of each member is `forall x in S : ..`"),
    ("exists", "that there is one is `size(S) >= 1`"),
    ("if", "`if a then b` is `not a or b`"),
    ("sizeof", "how many members a set has is `size(S)`"),
    ("count", "how many members a set has is `size(S)`"),
    ("len", "how many members a set has is `size(S)`"),
    ("length", "how many members a set has is `size(S)`"),
];

// Keywords that are tried as names, with names that serve.
const RESPELT: &[(&str, &str)] = &[
    ("size", "`length` or `bytes`"),
    ("head", "`first`"),
    ("number", "`count`"),
    ("slot", "`place`"),
    ("bits", "`map`"),
    ("some", "`any`"),
    ("none", "`nothing`"),
    ("at", "`place`"),
    ("set", "`group`"),
    ("order", "`rank`"),
    ("version", "`release`"),
    ("step", "`stride`"),
    ("fixed", "`constant`"),
    ("pool", "`store`"),
    ("init", "`initial`"),
    ("legal", "`valid`"),
    ("codes", "`code`"),
    ("given", "`known`"),
];

// What a table has for a word.
fn found_in(table: &[(&'static str, &'static str)], word: &[u8]) -> Option<&'static str> {
    for (tried, instead) in table {
        if tried.as_bytes() == word {
            return Some(*instead);
        }
    }
    None
}

// The words that are tried where this may stand.
fn tried_words(expected: &Expected) -> &'static [(&'static str, &'static str)] {
    if expected.has_keyword(Keyword::Constraint) {
        DECLARATIONS
    } else if expected.has_keyword(Keyword::U8) {
        FIELDS
    } else if expected.has_keyword(Keyword::When) {
        CONDITIONS
    } else if expected.has_keyword(Keyword::As) {
        VIEWS
    } else if expected.has_keyword(Keyword::And) {
        CONNECTIVES
    } else if expected.number {
        NUMBERS
    } else {
        &[]
    }
}

/// What stands here for a word of another language that can't stand at its place, by what may.
pub fn instead_of(word: &[u8], expected: &Expected) -> Option<&'static str> {
    found_in(tried_words(expected), word)
}

/// What stands here for a word of another language that was read as a variable.
pub fn phrase_for(word: &[u8]) -> Option<&'static str> {
    found_in(PHRASES, word)
}

/// Names that serve in place of a keyword.
pub fn name_for(keyword: &[u8]) -> Option<&'static str> {
    found_in(RESPELT, keyword)
}

// Marks that begin no token.
const MARKS: &[(char, &str)] = &[
    ('!', "`!` stands in `!=` alone; a negation is `not`"),
    ('&', "that both hold is `a and b`"),
    ('|', "that one of two holds is `a or b`"),
    ('"', "there are no strings"),
    ('\'', "there are no letters: write the number"),
    ('_', "a name begins with a letter"),
    ('@', "where a pool begins stands behind `at`"),
    ('%', "there is no remainder: `n % k` is `n - n / k * k`"),
    ('^', "there are no powers: write the number"),
    (
        '~',
        "a complement is a set of its own, `set F of p except U`, in version 2",
    ),
    ('?', "`?` has no meaning here"),
    ('\\', "`\\` has no meaning here"),
    ('$', "a name begins with a letter"),
    ('`', "names stand without quotes"),
    ('\0', "the text holds a byte 0: is it a text?"),
    (
        '\u{a0}',
        "this is a space that doesn't break: write a plain one",
    ),
    ('\u{feff}', "a text begins without a byte order mark"),
    ('“', "there are no strings"),
    ('”', "there are no strings"),
    ('≤', "at most is written `<=`"),
    ('≥', "at least is written `>=`"),
    ('≠', "different is written `!=`"),
    (
        '→',
        "write `->` where a reference leads, and `=>` for what a rule gives",
    ),
    ('⇒', "what a rule gives stands behind `=>`"),
    ('∀', "a constraint of each member is `forall x in S : ..`"),
    ('¬', "a negation is `not`"),
];

/// What to write in place of a mark that begins no token.
pub fn instead_of_mark(mark: char) -> Option<&'static str> {
    for (foreign, instead) in MARKS {
        if *foreign == mark {
            return Some(*instead);
        }
    }
    None
}
