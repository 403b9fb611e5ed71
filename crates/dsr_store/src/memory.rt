// Shelves and outputs that live in memory.
ghost use Rattle.std.specs.Prelude.{◌≡◌, ◌+◌, ◌≤◌, ◌⊎◌, [], Some, true, false, vec_len, IfOk, IfErr, OnOk, OnErr, IsErr, IsErrOf, IsTrue};
ghost use Rattle.std.specs.Bool.{OnTrue};
ghost use Rattle.dsr_store.specs.Keeping.{held_in};
ghost use Rattle.dsr_store.specs.Failing.{failures, is_due, one_more};

use crate::keeping::{front_of, put_file};
use crate::outside::{Held, Missed, Shelf, ShelfFault, Sink, SinkFault};
use std::alloc::Global;

// Counts a call, and says whether it is made to fail.
pub(crate) fn tick(calls: &mut u64, fail: &[u64]) -> bool
    ensures due { result ≡ is_due fail.now calls.old }
    ensures counted { calls.new ≡ one_more calls.old }
    ensures later { failures fail.now calls.old ≤ failures fail.now calls.new }
    ensures failed { OnTrue result (failures fail.now calls.old + 1 ≤ failures fail.now calls.new) }
    ensures quiet { result ≡ false → failures fail.now calls.new ≡ failures fail.now calls.old }
{
    let before = *calls;
    *calls = before.saturating_add(1);
    before < u64::MAX && fail.contains(&*calls)
}

/// A shelf whose files live in memory, and which fails only a load of a file that isn't held.
///
/// Its count of failures is always 0, so what each shelf promises already says that, and that no
/// save answers `Failed`.
#[derive(Drop)]
pub struct SureShelf {
    /// The files, each name once: a further file of a name isn't seen.
    pub files: Vec<Held>,
    /// The last call that failed, if one did.
    pub last: Option<Missed>,
}

impl Shelf for SureShelf {
    ghost use Rattle.dsr_store.specs.Causes.{Marks};
    ghost use Rattle.dsr_store.specs.Files.{IsFrontOf, Lacks};

    ghost held = { λ shelf. held_in shelf.files.items };

    ghost faults = { λ _. 0 };

    ghost last = { λ shelf. shelf.last };

    fn load(&mut self, alloc: Global, name: &str, cap: u64) -> Result<Vec<u8>, ShelfFault>
        ensures capped { IfOk result (λ bytes. vec_len bytes ≤ cap) }
        ensures front { IfOk result
            (λ bytes. IsFrontOf (held_in self.old.files.items) name.now cap bytes.items) }
        ensures held { held_in self.new.files.items ≡ held_in self.old.files.items }
        ensures last { Marks result (record { saving = false; name = name.now }) self.old.last self.new.last }

        ensures failed { IsErrOf result ShelfFault.Failed → Lacks (held_in self.old.files.items) name.now }
        ensures same_files { self.new.files.items ≡ self.old.files.items }
    {
        let missed = Missed::new(alloc, false, name)?;
        match front_of(alloc, &self.files, name, cap)? {
            Some(bytes) => Ok(bytes),
            None => {
                self.last = Some(missed);
                Err(ShelfFault::Failed)
            }
        }
    }

    fn save(&mut self, alloc: Global, name: &str, bytes: &[u8]) -> Result<(), ShelfFault> {
        Ok(put_file(alloc, &mut self.files, name, bytes)?)
    }
}

/// An output that is kept in memory, and whose writes fail where they are told to.
///
/// Beside what each sink promises, a write that is made to fail never succeeds, no other answers
/// `Failed`, and after a fault nothing of the piece was written.
#[derive(Drop)]
pub struct MemorySink {
    /// All that was written.
    pub bytes: Vec<u8>,
    /// The numbers of the calls that are to fail. The first call has the number 1.
    pub fail: Vec<u64>,
    /// How many calls were made, without those that ran out of memory. At its last value it
    /// stays, and no further call is made to fail.
    pub calls: u64,
}

impl Sink for MemorySink {
    ghost use Rattle.dsr_store.specs.Causes.{Rose};
    ghost use Rattle.dsr_store.specs.Written.{appended, AppendsFront};

    ghost written = { λ sink. Some sink.bytes.items };

    ghost faults = { λ sink. failures sink.fail.items sink.calls };

    fn put(&mut self, _alloc: Global, piece: &[u8]) -> Result<(), SinkFault>
        ensures ok { OnOk result (Some self.new.bytes.items ≡ appended (Some self.old.bytes.items) piece.now) }
        ensures no_memory { IsErrOf result SinkFault.NoMemory → Some self.new.bytes.items
            ≡ Some self.old.bytes.items }
        ensures front { AppendsFront (Some self.old.bytes.items) (Some self.new.bytes.items) piece.now }
        ensures later { failures self.old.fail.items self.old.calls
            ≤ failures self.new.fail.items self.new.calls }
        ensures failed { IsErrOf result SinkFault.Failed →
            Rose (failures self.old.fail.items self.old.calls) (failures self.new.fail.items self.new.calls) }
        ensures quiet { IsErrOf result SinkFault.Failed ⊎
            (failures self.new.fail.items self.new.calls ≡ failures self.old.fail.items self.old.calls) }

        ensures due { IsTrue (is_due self.old.fail.items self.old.calls) → IsErr result }
        ensures cause { IsErrOf result SinkFault.Failed → IsTrue (is_due self.old.fail.items self.old.calls) }
        ensures err { OnErr result (self.new.bytes.items ≡ self.old.bytes.items) }
        ensures same_fail { self.new.fail.items ≡ self.old.fail.items }
        ensures counted { IsErrOf result SinkFault.NoMemory ⊎ (self.new.calls ≡ one_more self.old.calls) }
        ensures not_counted { IsErrOf result SinkFault.NoMemory → self.new.calls ≡ self.old.calls }
    {
        let mut calls = self.calls;
        if tick(&mut calls, &self.fail) {
            self.calls = calls;
            return Err(SinkFault::Failed);
        }
        self.bytes.extend_from_slice(piece)?;
        self.calls = calls;
        Ok(())
    }
}

/// An output that is kept in memory, and gives no fault but for want of memory.
#[derive(Drop)]
pub struct SureSink {
    /// All that was written.
    pub bytes: Vec<u8>,
}

impl Sink for SureSink {
    ghost use Rattle.dsr_store.specs.Written.{appended, AppendsFront};

    ghost written = { λ sink. Some sink.bytes.items };

    ghost faults = { λ _. 0 };

    fn put(&mut self, _alloc: Global, piece: &[u8]) -> Result<(), SinkFault>
        ensures ok { OnOk result (Some self.new.bytes.items ≡ appended (Some self.old.bytes.items) piece.now) }
        ensures no_memory { IsErrOf result SinkFault.NoMemory → Some self.new.bytes.items
            ≡ Some self.old.bytes.items }
        ensures front { AppendsFront (Some self.old.bytes.items) (Some self.new.bytes.items) piece.now }

        ensures sure { IfErr result (λ fault. fault ≡ SinkFault.NoMemory) }
        ensures err { OnErr result (self.new.bytes.items ≡ self.old.bytes.items) }
    {
        Ok(self.bytes.extend_from_slice(piece)?)
    }
}
