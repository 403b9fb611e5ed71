// What may be wrong in a specification whose text is one of the grammar.
ghost use Rattle.std.specs.Prelude.{◌≡◌, nat_lt, nat_eq, ◌&&◌, ◌||◌};
ghost use Rattle.dsr_tree.specs.Faults.{kind_number, is_before};

/// A condition under which a specification is refused.
#[derive(Clone, Copy)]
pub enum Condition {
    /// A name is declared twice.
    NameTwice,
    /// A name isn't declared as what it is used for.
    UnknownName,
    /// A field of whole bytes, an array or a gap begins inside a byte.
    Align,
    /// A fixed field stands where none may.
    FixedPlace,
    /// A structure extends itself or a later one.
    SubtypeLoop,
    /// There are more of a kind than the language allows.
    Limit,
    /// Pools, structures or kinds of values disagree.
    PoolMismatch,
    /// The lengths of two arrays, or of an array and a pool, aren't written as the same expression.
    LengthMismatch,
    /// An index is missing, stands where none may, or isn't declared.
    BadIndex,
    /// A width isn't one from 1 to 32 bits, or a constant doesn't fit its field.
    Width,
    /// `not` stands over a size or a value.
    NegatedValue,
    /// The normal form of a constraint is too large.
    TooManyConjunctions,
    /// A constraint has too many different atoms.
    TooManyAtoms,
}

impl Condition {
    /// The number by which a refusal tells the condition: 1 to 13, in the order of the variants.
    pub fn kind(self) -> u8
        ensures { result ≡ kind_number self }
    {
        match self {
            Condition::NameTwice => 1,
            Condition::UnknownName => 2,
            Condition::Align => 3,
            Condition::FixedPlace => 4,
            Condition::SubtypeLoop => 5,
            Condition::Limit => 6,
            Condition::PoolMismatch => 7,
            Condition::LengthMismatch => 8,
            Condition::BadIndex => 9,
            Condition::Width => 10,
            Condition::NegatedValue => 11,
            Condition::TooManyConjunctions => 12,
            Condition::TooManyAtoms => 13,
        }
    }
}

/// A condition that holds in a specification, and the place in its text at which it is told.
#[derive(Clone, Copy)]
pub struct Fault {
    /// Bytes from the start of the text.
    pub place: u64,
    pub condition: Condition,
}

impl Fault {
    /// Whether this fault is told rather than the other one: its place is less, or it has the
    /// same place and a condition of a lesser number.
    pub fn is_before(self, other: Fault) -> bool
        ensures { result ≡ is_before self other }
    {
        self.place < other.place
            || (self.place == other.place && self.condition.kind() < other.condition.kind())
    }
}
