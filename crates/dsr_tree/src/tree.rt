// The tree of a specification's text: a type for each production of the grammar. Where a production
// begins with a keyword or a sign, its type keeps that token's place; places count bytes of the
// text from 0. Of all other tokens no place is kept. Where a production begins with another
// production, its place is that one's.
use dsr_ir::{Name, Order, Seq};

/// A name and where it stands.
pub struct PlacedName {
    pub name: Name,
    pub place: u64,
}

impl Drop for PlacedName {
    fn drop(self) {
        let PlacedName { name: _, place: _ } = self;
    }
}

/// A number and where it stands.
#[derive(Clone, Copy)]
pub struct PlacedNumber {
    pub number: u64,
    pub place: u64,
}

/// The tree of a whole text.
pub struct Tree {
    pub place: u64,
    /// 1 or 2.
    pub version: PlacedNumber,
    pub order: Order,
    pub structures: Seq<Structure>,
    pub pools: Seq<Pool>,
    pub sets: Seq<Set>,
    pub relations: Seq<Relation>,
    pub supplies: Seq<Fresh>,
    pub rules: Seq<Rule>,
    pub constraints: Seq<Constraint>,
}

impl Drop for Tree {
    fn drop(self) {
        let Tree {
            place: _,
            version: _,
            order: _,
            structures: _,
            pools: _,
            sets: _,
            relations: _,
            supplies: _,
            rules: _,
            constraints: _,
        } = self;
    }
}

/// `structure NAME extends NAME { FIELDS }`
pub struct Structure {
    pub place: u64,
    pub name: PlacedName,
    pub parent: Option<PlacedName>,
    pub fields: Seq<Field>,
}

impl Drop for Structure {
    fn drop(self) {
        let Structure {
            place: _,
            name: _,
            parent: _,
            fields: _,
        } = self;
    }
}

/// A field, or bytes that are skipped.
#[derive(Drop)]
pub enum Field {
    /// `fixed WIDTH NAME [LENGTH] -> POOL;` or `init NUMBER` in place of `-> POOL`
    Named(NamedField),
    /// `skip LENGTH;`
    Skip { place: u64, length: Expr },
}

/// A field with a name.
pub struct NamedField {
    /// The place of `fixed` where the field is one.
    pub fixed: Option<u64>,
    pub width: Width,
    pub name: PlacedName,
    pub length: Option<Expr>,
    pub content: Option<Content>,
}

impl Drop for NamedField {
    fn drop(self) {
        let NamedField {
            fixed: _,
            width: _,
            name: _,
            length: _,
            content: _,
        } = self;
    }
}

/// What a field holds, where that is said.
#[derive(Drop)]
pub enum Content {
    /// `-> POOL`
    Refers { place: u64, pool: PlacedName },
    /// `init NUMBER`
    Init { place: u64, number: PlacedNumber },
}

/// The width of a field's entry.
#[derive(Clone, Copy)]
pub enum Width {
    U8 { place: u64 },
    U16 { place: u64 },
    U32 { place: u64 },
    U64 { place: u64 },
    /// `bits NUMBER`
    Bits { place: u64, number: PlacedNumber },
}

/// `pool NAME : STRUCTURE[COUNT] slot SLOT at START codes CODE step STEP none NONE;`
pub struct Pool {
    pub place: u64,
    pub name: PlacedName,
    pub structure: PlacedName,
    pub count: Expr,
    pub slot: Option<Expr>,
    pub start: Expr,
    pub code: Expr,
    pub step: Expr,
    pub none: Expr,
}

impl Drop for Pool {
    fn drop(self) {
        let Pool {
            place: _,
            name: _,
            structure: _,
            count: _,
            slot: _,
            start: _,
            code: _,
            step: _,
            none: _,
        } = self;
    }
}

/// `set NAME of POOL as STRUCTURE;` or `except SET` in place of `as STRUCTURE`
pub struct Set {
    pub place: u64,
    pub name: PlacedName,
    pub pool: PlacedName,
    pub view: Option<View>,
}

impl Drop for Set {
    fn drop(self) {
        let Set {
            place: _,
            name: _,
            pool: _,
            view: _,
        } = self;
    }
}

/// How a set is read, where that is said.
#[derive(Drop)]
pub enum View {
    /// `as STRUCTURE`
    As { place: u64, structure: PlacedName },
    /// `except SET`, in a text of version 2
    Except { place: u64, set: PlacedName },
}

/// `relation NAME : SOURCE -> TARGET;`
pub struct Relation {
    pub place: u64,
    pub name: PlacedName,
    pub source: Var,
    pub target: Target,
}

impl Drop for Relation {
    fn drop(self) {
        let Relation {
            place: _,
            name: _,
            source: _,
            target: _,
        } = self;
    }
}

/// The second part of a relation's pairs.
#[derive(Drop)]
pub enum Target {
    /// `number`
    Number { place: u64 },
    Pool(PlacedName),
}

/// `fresh POOL avoid SET, SET;`
pub struct Fresh {
    pub place: u64,
    pub pool: PlacedName,
    pub first: PlacedName,
    /// The sets after the first one.
    pub rest: Seq<PlacedName>,
}

impl Drop for Fresh {
    fn drop(self) {
        let Fresh {
            place: _,
            pool: _,
            first: _,
            rest: _,
        } = self;
    }
}

/// `rule PREMISE, NAME in INDEX when GUARD and GUARD => INCLUSION;`
pub struct Rule {
    pub place: u64,
    pub premise: Premise,
    pub span: Option<Span>,
    pub guards: Option<Guards>,
    pub inclusion: Inclusion,
}

impl Drop for Rule {
    fn drop(self) {
        let Rule {
            place: _,
            premise: _,
            span: _,
            guards: _,
            inclusion: _,
        } = self;
    }
}

/// The record that a rule reads.
#[derive(Drop)]
pub enum Premise {
    /// `head`
    Head { place: u64 },
    /// `NAME in SET`
    Member { name: PlacedName, set: PlacedName },
}

/// `NAME in INDEX`
pub struct Span {
    pub name: PlacedName,
    pub index: Index,
}

impl Drop for Span {
    fn drop(self) {
        let Span { name: _, index: _ } = self;
    }
}

/// What an index runs over.
#[derive(Drop)]
pub enum Index {
    /// `pool POOL`
    Pool { place: u64, pool: PlacedName },
    Array(PlacedName),
}

/// `when GUARD and GUARD`
pub struct Guards {
    pub first: Guard,
    /// The guards after the first one.
    pub rest: Seq<Guard>,
}

impl Drop for Guards {
    fn drop(self) {
        let Guards { first: _, rest: _ } = self;
    }
}

/// A condition of a rule.
#[derive(Drop)]
pub enum Guard {
    /// `legal(PATH)` and its like
    Tested {
        place: u64,
        test: RefTest,
        path: Path,
    },
    /// `PATH COMPARE NUMBER`
    Compared {
        path: Path,
        compare: Compare,
        number: PlacedNumber,
    },
}

/// A test of a reference.
#[derive(Clone, Copy)]
pub enum RefTest {
    Legal,
    Illegal,
    None,
    Some,
}

/// `VARIABLE.FIELD[INDEX]`
pub struct Path {
    pub var: Var,
    pub field: PlacedName,
    pub index: Option<PlacedName>,
}

impl Drop for Path {
    fn drop(self) {
        let Path {
            var: _,
            field: _,
            index: _,
        } = self;
    }
}

/// What a rule gives.
#[derive(Drop)]
pub enum Inclusion {
    /// `<TERM, PATH> in RELATION`
    Pair {
        place: u64,
        term: Term,
        path: Path,
        relation: PlacedName,
    },
    /// `MEMBER in SET`
    Member {
        member: Member,
        set: PlacedName,
    },
}

/// The source of a pair that a rule gives.
#[derive(Drop)]
pub enum Term {
    /// `head`
    Head {
        place: u64,
    },
    /// `NAME[INDEX]`
    Named {
        name: PlacedName,
        index: Option<PlacedName>,
    },
}

/// The member that a rule gives.
pub struct Member {
    pub var: Var,
    pub part: Option<MemberPart>,
}

impl Drop for Member {
    fn drop(self) {
        let Member { var: _, part: _ } = self;
    }
}

/// What stands behind the variable of a member.
#[derive(Drop)]
pub enum MemberPart {
    /// `.FIELD[INDEX]`
    Field {
        field: PlacedName,
        index: Option<PlacedName>,
    },
    /// `[INDEX]`
    Slot(PlacedName),
}

/// `constraint NAME : forall BINDER in SYMBOL : FORMULA;`
pub struct Constraint {
    pub place: u64,
    pub name: PlacedName,
    pub quantifier: Option<Quantifier>,
    pub formula: Formula,
}

impl Drop for Constraint {
    fn drop(self) {
        let Constraint {
            place: _,
            name: _,
            quantifier: _,
            formula: _,
        } = self;
    }
}

/// `forall BINDER in SYMBOL :`
pub struct Quantifier {
    pub place: u64,
    pub binder: Binder,
    pub symbol: PlacedName,
}

impl Drop for Quantifier {
    fn drop(self) {
        let Quantifier {
            place: _,
            binder: _,
            symbol: _,
        } = self;
    }
}

/// The variables of a quantifier.
#[derive(Drop)]
pub enum Binder {
    One(PlacedName),
    /// `<NAME, NAME>`
    Pair {
        place: u64,
        first: PlacedName,
        second: PlacedName,
    },
}

/// `JOIN or JOIN`
#[derive(Drop)]
#[cycle(formula)]
pub struct Formula {
    pub first: Join,
    pub rest: Vec<Join>,
}

/// `UNIT and UNIT`
#[derive(Drop)]
#[cycle(formula)]
pub struct Join {
    pub first: Unit,
    pub rest: Vec<Unit>,
}

/// A part of a formula that `and` and `or` don't divide.
#[derive(Drop)]
#[cycle(formula)]
pub enum Unit {
    /// `not UNIT`
    Not { place: u64, unit: Box<Unit> },
    /// `given UNIT`
    Given { place: u64, unit: Box<Unit> },
    /// `(FORMULA)`
    Group { place: u64, formula: Box<Formula> },
    Atom(Atom),
}

/// A statement about the model.
#[derive(Drop)]
pub enum Atom {
    /// `SIZE BOUND NUMBER`
    Count {
        size: Size,
        bound: Bound,
        number: PlacedNumber,
    },
    /// `<VARIABLE, VARIABLE> in RELATION`
    Pair {
        place: u64,
        first: Var,
        second: Var,
        relation: PlacedName,
    },
    /// `VARIABLE in SET`
    Member {
        var: Var,
        set: PlacedName,
    },
    /// `VARIABLE.RELATION COMPARE MEASURE`
    Value {
        var: Var,
        relation: PlacedName,
        compare: Compare,
        measure: Measure,
    },
}

/// What a value is compared with.
#[derive(Drop)]
pub enum Measure {
    Number(PlacedNumber),
    Size(Size),
}

/// `size(VARIABLE.NAME)`
pub struct Size {
    pub place: u64,
    pub var: Var,
    pub part: Option<PlacedName>,
}

impl Drop for Size {
    fn drop(self) {
        let Size {
            place: _,
            var: _,
            part: _,
        } = self;
    }
}

/// `head` or a name.
#[derive(Drop)]
pub enum Var {
    Head { place: u64 },
    Name(PlacedName),
}

/// A comparison of values.
#[derive(Clone, Copy)]
pub enum Compare {
    Equal,
    Differs,
    Less,
    AtMost,
    Greater,
    AtLeast,
}

/// A comparison of sizes.
#[derive(Clone, Copy)]
pub enum Bound {
    AtMost,
    AtLeast,
    Equal,
}

/// `TERM + TERM - TERM`
#[derive(Drop)]
#[cycle(expr)]
pub struct Expr {
    pub first: Term2,
    pub rest: Vec<MoreTerm>,
}

/// A term behind its sign.
#[derive(Drop)]
#[cycle(expr)]
pub struct MoreTerm {
    pub sign: SumSign,
    pub term: Term2,
}

/// `FACTOR * FACTOR / FACTOR`
#[derive(Drop)]
#[cycle(expr)]
pub struct Term2 {
    pub first: Factor,
    pub rest: Vec<MoreFactor>,
}

/// A factor behind its sign.
#[derive(Drop)]
#[cycle(expr)]
pub struct MoreFactor {
    pub sign: ProductSign,
    pub factor: Factor,
}

/// A part of an expression that no operator divides.
#[derive(Drop)]
#[cycle(expr)]
pub enum Factor {
    Number(PlacedNumber),
    Name(PlacedName),
    /// `(EXPRESSION)`
    Group { place: u64, inner: Box<Expr> },
}

/// The sign before a term.
#[derive(Clone, Copy)]
pub enum SumSign {
    Plus,
    Minus,
}

/// The sign before a factor.
#[derive(Clone, Copy)]
pub enum ProductSign {
    Times,
    Over,
}
