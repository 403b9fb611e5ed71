// The steps of a repair, as they are noted.
use crate::entries::{EntryHead, EntryRef};
use dsr_ir::NoMemory;
use dsr_repair_theory::{ByteChange, CellSet};
use std::alloc::Global;
use std::marker::Model;

// An entry's head, and how many sets and bytes it has.
#[derive(Clone, Copy)]
struct Row {
    head: EntryHead,
    sets: usize,
    bytes: usize,
}

/// What is told of each step of a repair, in order.
#[derive(Drop)]
pub struct Log {
    rows: Vec<Row>,
    sets: Vec<CellSet>,
    bytes: Vec<ByteChange>,
}

impl Model for Log {
    ghost use Rattle.std.specs.Prelude.{◌-◌, vec_capacity, vec_len};
    ghost use Rattle.dsr_log.specs.Logs.{AreShared, Logged, entries_of};

    ghost Value = { Logged };

    ghost view = { λ l. record {
      entries = entries_of l.rows.items l.sets.items l.bytes.items;
      spare = vec_capacity l.rows - vec_len l.rows;
      spare_sets = vec_capacity l.sets - vec_len l.sets;
      spare_bytes = vec_capacity l.bytes - vec_len l.bytes;
    } };

    ghost invariant = { λ l. AreShared l.rows.items l.sets.items l.bytes.items };
}

impl Log {
    ghost use Rattle.std.specs.Prelude.{◌≡◌, ◌<◌, ◌≤◌, ◌+◌, ◌++◌, ◌∷◌, [], OnOk, length};

    /// No entries. Takes no memory.
    pub fn new(alloc: Global) -> Log
        ensures { result.entries ≡ [] }
    {
        Log {
            rows: Vec::new(alloc),
            sets: Vec::new(alloc),
            bytes: Vec::new(alloc),
        }
    }

    /// How many entries there are.
    pub fn len(&self) -> usize
        ensures { result ≡ length self.now.entries }
    {
        self.rows.len()
    }

    /// The entries.
    pub fn entries(&self) -> Entries<'_>
        ensures { result ≡ self.now.entries }
    {
        Entries {
            rows: &self.rows,
            sets: &self.sets,
            bytes: &self.bytes,
        }
    }

    /// Takes all entries away. Their room stays for others. Takes no memory.
    pub fn clear(&mut self)
        ensures entries { self.new.entries ≡ [] }
        ensures room { self.new.spare ≡ self.old.spare + length self.old.entries }
        ensures room_for_sets { self.old.spare_sets ≤ self.new.spare_sets }
        ensures room_for_bytes { self.old.spare_bytes ≤ self.new.spare_bytes }
    {
        self.rows.clear();
        self.sets.clear();
        self.bytes.clear();
    }

    /// Makes room for one more entry with so many sets and bytes at most.
    pub fn reserve(&mut self, sets: usize, bytes: usize) -> Result<(), NoMemory>
        ensures same { self.new.entries ≡ self.old.entries }
        ensures room { OnOk result (0 < self.new.spare) }
        ensures room_for_sets { OnOk result (sets ≤ self.new.spare_sets) }
        ensures room_for_bytes { OnOk result (bytes ≤ self.new.spare_bytes) }
        ensures kept { self.old.spare ≤ self.new.spare }
        ensures kept_for_sets { self.old.spare_sets ≤ self.new.spare_sets }
        ensures kept_for_bytes { self.old.spare_bytes ≤ self.new.spare_bytes }
    {
        self.rows.reserve(1)?;
        self.sets.reserve(sets)?;
        self.bytes.reserve(bytes)?;
        Ok(())
    }

    /// Notes an entry, for which there is room. Takes no memory.
    pub fn push(&mut self, entry: &EntryRef)
        requires room { 0 < self.old.spare }
        requires room_for_sets { length entry.now.sets ≤ self.old.spare_sets }
        requires room_for_bytes { length entry.now.bytes ≤ self.old.spare_bytes }
        ensures entries { self.new.entries ≡ self.old.entries ++ entry.now ∷ [] }
        ensures spare { self.new.spare + 1 ≡ self.old.spare }
        ensures spare_sets { self.old.spare_sets ≤ self.new.spare_sets + length entry.now.sets }
        ensures spare_bytes { self.old.spare_bytes
            ≤ self.new.spare_bytes + length entry.now.bytes }
    {
        let (sets, bytes) = (entry.sets(), entry.bytes());
        self.sets.extend_from_slice(sets).unwrap();
        self.bytes.extend_from_slice(bytes).unwrap();
        self.rows.push_reserved(Row {
            head: *entry.head(),
            sets: sets.len(),
            bytes: bytes.len(),
        });
    }
}

/// The entries of a log that weren't read yet, in order.
#[derive(Drop)]
pub struct Entries<'a> {
    rows: &'a [Row],
    sets: &'a [CellSet],
    bytes: &'a [ByteChange],
}

impl<'a> Model for Entries<'a> {
    ghost use Rattle.std.specs.Prelude.{List};
    ghost use Rattle.dsr_log.specs.Logs.{AreShared, entries_of};
    ghost use Rattle.dsr_repair_theory.specs.declared.entries.Entry.{Entry};

    ghost Value = { List Entry };

    ghost view = { λ e. entries_of e.rows.now e.sets.now e.bytes.now };

    ghost invariant = { λ e. AreShared e.rows.now e.sets.now e.bytes.now };
}

impl<'a> Iterator for Entries<'a> {
    ghost use Rattle.std.specs.Iterator.{YieldsFirst, item_count};

    type Item = EntryRef<'a>;

    ghost next_gives = { YieldsFirst (λ left. left) };

    ghost remaining = { item_count (λ left. left) };

    fn next(&mut self) -> Option<EntryRef<'a>> {
        let (row, rows) = self.rows.split_first()?;
        let (sets, other_sets) = self.sets.split_at(row.sets);
        let (bytes, other_bytes) = self.bytes.split_at(row.bytes);
        *self = Entries {
            rows,
            sets: other_sets,
            bytes: other_bytes,
        };
        Some(EntryRef::new(row.head, sets, bytes))
    }
}

impl<'a> DoubleEndedIterator for Entries<'a> {
    ghost use Rattle.std.specs.Iterator.{YieldsLast};

    ghost next_back_gives = { YieldsLast (λ left. left) };

    fn next_back(&mut self) -> Option<EntryRef<'a>> {
        let (row, rows) = self.rows.split_last()?;
        let (other_sets, sets) = self.sets.split_at(self.sets.len() - row.sets);
        let (other_bytes, bytes) = self.bytes.split_at(self.bytes.len() - row.bytes);
        *self = Entries {
            rows,
            sets: other_sets,
            bytes: other_bytes,
        };
        Some(EntryRef::new(row.head, sets, bytes))
    }
}
