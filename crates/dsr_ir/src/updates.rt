// Updates towards a goal.
use crate::{Measure, NoMemory, Path, Seq, Test, TryClone, Var};
use std::alloc::Global;

/// A set or a relation, by its number.
#[derive(Clone, Copy, PartialEq, Eq)]
pub enum Symbol {
    Set(u32),
    Rel(u32),
}

/// The value that a write gives.
#[derive(Clone, Copy, PartialEq, Eq)]
pub enum Pick {
    Num(u64),
    /// The code of no slot of the field's pool.
    NoneCode,
    /// The code of the slot that the variable is bound to.
    CodeOf(Var),
    /// The code of the fresh record.
    Fresh,
    /// The number of what is counted.
    SizeOf(Measure),
}

/// A write of one field; it is skipped where the wanted test comes out as wanted already.
#[derive(Clone, Copy, PartialEq, Eq)]
pub struct Write {
    pub path: Path,
    pub pick: Pick,
    /// A test of the field, with the outcome that is wanted.
    pub wants: Option<(Test, bool)>,
}

/// The record that an update writes.
#[derive(Clone, Copy, PartialEq, Eq)]
pub enum Place {
    Head,
    /// The record that the variable is bound to; the variable is not `Var::Head`.
    Of(Var),
    /// The record of the instance that gives the tuple to be removed.
    Deriver,
}

/// The array entry that an update writes.
#[derive(Clone, Copy, PartialEq, Eq)]
pub enum At {
    /// None: the fields are scalars.
    Scalar,
    /// The entry at the slot that the variable is bound to.
    SlotOf(Var),
    /// The entry of the instance that gives the tuple to be removed.
    Deriver,
}

/// Writes to the cells of one record, and perhaps a fresh record of a pool.
#[derive(PartialEq, Eq)]
pub struct Update {
    /// The number of the rule whose tuples are added, removed or set.
    pub rule: u32,
    pub place: Place,
    pub at: At,
    pub writes: Seq<Write>,
    /// The pool of the fresh record, counted from 1.
    pub fresh: Option<u32>,
}

impl Drop for Update {
    fn drop(self) {
        let Update {
            rule: _,
            place: _,
            at: _,
            writes: _,
            fresh: _,
        } = self;
    }
}

impl TryClone for Update {
    fn clone(&self, alloc: Global) -> Result<Update, NoMemory> {
        Ok(Update {
            rule: self.rule,
            place: self.place,
            at: self.at,
            writes: self.writes.clone(alloc)?,
            fresh: self.fresh,
        })
    }
}

/// What an update is for.
#[derive(Clone, Copy, PartialEq, Eq)]
pub enum Goal {
    /// A member joins a set.
    AddSet,
    /// A member leaves a set.
    RemoveSet,
    /// A pair joins a relation.
    AddTuple,
    /// A pair leaves a relation.
    RemoveTuple,
    /// A record's number under a relation becomes the wanted one.
    SetValue,
    /// The greatest of what is counted goes.
    Trim,
    /// A fresh record joins what is counted.
    Supply,
    /// `Supply` where nothing is counted, and `Trim` where more than one is.
    ExactlyOne,
}

/// A goal with one update, or one update for each rule of a symbol; in `ExactlyOne` the update
/// that supplies stands first and those that trim follow.
#[derive(PartialEq, Eq)]
pub struct Template {
    pub goal: Goal,
    pub updates: Seq<Update>,
}

impl Drop for Template {
    fn drop(self) {
        let Template {
            goal: _,
            updates: _,
        } = self;
    }
}

impl TryClone for Template {
    fn clone(&self, alloc: Global) -> Result<Template, NoMemory> {
        Ok(Template {
            goal: self.goal,
            updates: self.updates.clone(alloc)?,
        })
    }
}
