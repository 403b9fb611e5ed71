// The steps of a repair, as they are noted.
use crate::entries::Entry;
use dsr_ir::NoMemory;
use std::alloc::Global;
use std::marker::Model;

/// What is told of each step of a repair, in order.
pub struct Log {
    entries: Vec<Entry>,
}

impl Drop for Log {
    fn drop(self) {
        let Log { entries: _ } = self;
    }
}

impl Model for Log {
    ghost use Rattle.std.specs.Prelude.{◌-◌, vec_capacity, vec_len};
    ghost use Rattle.dsr_repair_theory.specs.Logs.{Logged};

    ghost Value = { Logged };

    ghost view = { λ l. record {
      entries = l.entries.items;
      spare = vec_capacity l.entries - vec_len l.entries;
    } };
}

impl Log {
    ghost use Rattle.std.specs.Prelude.{◌≡◌, ◌<◌, ◌≤◌, ◌+◌, ◌++◌, ◌∷◌, [], OnOk};

    /// No entries. Takes no memory.
    pub fn new(alloc: Global) -> Log
        ensures { result.entries ≡ [] }
    {
        Log {
            entries: Vec::new(alloc),
        }
    }

    /// The entries.
    pub fn entries(&self) -> &[Entry]
        ensures { result.now ≡ self.now.entries }
    {
        &self.entries
    }

    /// Makes room for one more entry at least.
    pub fn reserve(&mut self) -> Result<(), NoMemory>
        ensures same { self.new.entries ≡ self.old.entries }
        ensures room { OnOk result (0 < self.new.spare) }
        ensures kept { self.old.spare ≤ self.new.spare }
    {
        self.entries.reserve(1)?;
        Ok(())
    }

    /// Notes an entry, for which there is room. Takes no memory.
    pub fn push(&mut self, entry: Entry)
        requires { 0 < self.old.spare }
        ensures entries { self.new.entries ≡ self.old.entries ++ entry ∷ [] }
        ensures spare { self.new.spare + 1 ≡ self.old.spare }
    {
        self.entries.push_reserved(entry);
    }
}
