// Which of two comes first, and what rules give.
use crate::copies::{name, one};
use dsr_ir::{Binding, Element, Fact, FieldRef, Inc, NoMemory, Path, Symbol, Target};
use std::alloc::Global;

const HEAD: Element = Element { pool: 0, slot: 0 };

const LOW: Element = Element { pool: 1, slot: 9 };

const HIGH: Element = Element { pool: 2, slot: 0 };

// The first of each pair is below the second.
const BINDINGS: [(Binding, Binding); 6] = [
    (Binding::Once, Binding::Each(HEAD)),
    (Binding::Each(HEAD), Binding::Each(LOW)),
    (Binding::Each(LOW), Binding::Each(HIGH)),
    (Binding::Each(HIGH), Binding::Pair(HEAD, HEAD)),
    (Binding::Pair(LOW, HIGH), Binding::Pair(HIGH, LOW)),
    (Binding::Pair(LOW, LOW), Binding::Pair(LOW, HIGH)),
];

const FACTS: [(Fact, Fact); 5] = [
    (Fact::Member(9, HIGH), Fact::Pair(0, HEAD, Target::Num(0))),
    (Fact::Member(1, HIGH), Fact::Member(2, LOW)),
    (Fact::Member(1, LOW), Fact::Member(1, HIGH)),
    (
        Fact::Pair(1, LOW, Target::Num(1)),
        Fact::Pair(1, HIGH, Target::Num(0)),
    ),
    (
        Fact::Pair(1, LOW, Target::Elem(HIGH)),
        Fact::Pair(1, LOW, Target::Num(0)),
    ),
];

const NAMES: [(&str, &str); 4] = [("B", "a"), ("a", "a1"), ("a1", "aa"), ("a9", "b")];

fn all_rise<T: PartialOrd>(pairs: &[(T, T)]) -> bool {
    for (less, more) in pairs {
        if !(less < more) {
            return false;
        }
    }
    true
}

fn is_below(alloc: Global, less: &str, more: &str) -> Result<bool, NoMemory> {
    let less = name(alloc, less.as_bytes())?;
    let more = name(alloc, more.as_bytes())?;
    Ok(less < more && less.bytes() != more.bytes())
}

fn names_rise(alloc: Global) -> bool {
    for (less, more) in &NAMES {
        if !is_below(alloc, less, more).unwrap_or(false) {
            return false;
        }
    }
    true
}

fn lists_rise(alloc: Global) -> Result<bool, NoMemory> {
    let low = one(alloc, LOW)?;
    let high = one(alloc, HIGH)?;
    Ok(low < high && low.items().len() == 1)
}

pub fn are_kept(alloc: Global) -> bool {
    all_rise(&BINDINGS)
        && all_rise(&FACTS)
        && names_rise(alloc)
        && lists_rise(alloc).unwrap_or(false)
}

const PATH: Path = Path {
    field: FieldRef {
        structure: 0,
        field: 0,
    },
    indexed: false,
};

// What rules give: each kind of inclusion with its symbol and whether it has a target.
const INCLUSIONS: [(Inc, Symbol, bool); 5] = [
    (Inc::Own(1), Symbol::Set(1), false),
    (Inc::Target(2, PATH), Symbol::Set(2), true),
    (Inc::Slot(3, 1), Symbol::Set(3), false),
    (Inc::OwnPair(4, PATH), Symbol::Rel(4), true),
    (Inc::SlotPair(5, 1, PATH), Symbol::Rel(5), true),
];

fn gives(inc: Inc, symbol: Symbol, has_target: bool) -> bool {
    inc.symbol() == symbol
        && inc.gives(symbol)
        && !inc.gives(Symbol::Set(4))
        && inc.target().is_some() == has_target
}

pub fn inclusions_give() -> bool {
    for (inc, symbol, has_target) in &INCLUSIONS {
        if !gives(*inc, *symbol, *has_target) {
            return false;
        }
    }
    true
}
