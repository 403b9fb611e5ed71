// A shelf whose failed saves leave part of what was to be saved.
ghost use Rattle.std.specs.Prelude.{◌≡◌, ◌≤◌, ◌⊎◌, vec_len, take, true, false, IfOk, OnOk, IsErr, IsErrOf, IsTrue};
ghost use Rattle.dsr_store.specs.Keeping.{held_in};
ghost use Rattle.dsr_store.specs.Failing.{failures, is_due};

use crate::keeping::{front_of, put_file};
use crate::memory::tick;
use crate::outside::{Held, Missed, Shelf, ShelfFault};
use std::alloc::Global;

/// A shelf whose files live in memory, whose calls fail where they are told to, and of whose failed
/// saves a part stays, as after a crash or on a full disk.
///
/// Beside what each shelf promises, a call that is made to fail never succeeds, and no other call
/// of a file that is held answers `Failed`.
#[derive(Drop)]
pub struct TornShelf {
    /// The files, each name once: a further file of a name isn't seen.
    pub files: Vec<Held>,
    /// The numbers of the calls that are to fail. The first call has the number 1.
    pub fail: Vec<u64>,
    /// How many of its bytes a failed save leaves, or all of them where there are fewer.
    pub cut: u64,
    /// How many calls were made, without those that ran out of memory. At its last value it
    /// stays, and no further call is made to fail.
    pub calls: u64,
    /// The last call that failed, if one did.
    pub last: Option<Missed>,
}

// At most so many of the first bytes.
fn front_within<'a>(bytes: &'a [u8], cut: u64) -> &'a [u8]
    ensures { result.now ≡ take cut bytes.now }
{
    if cut < bytes.len() as u64 {
        &bytes[..cut as usize]
    } else {
        bytes
    }
}

impl Shelf for TornShelf {
    ghost use Rattle.dsr_store.specs.Causes.{Rose, Marks};
    ghost use Rattle.dsr_store.specs.Failing.{calls_after};
    ghost use Rattle.dsr_store.specs.Files.{IsFrontOf, Lacks, with_file, OthersStand};

    ghost held = { λ shelf. held_in shelf.files.items };

    ghost faults = { λ shelf. failures shelf.fail.items shelf.calls };

    ghost last = { λ shelf. shelf.last };

    fn load(&mut self, alloc: Global, name: &str, cap: u64) -> Result<Vec<u8>, ShelfFault>
        ensures capped { IfOk result (λ bytes. vec_len bytes ≤ cap) }
        ensures front { IfOk result
            (λ bytes. IsFrontOf (held_in self.old.files.items) name.now cap bytes.items) }
        ensures held { held_in self.new.files.items ≡ held_in self.old.files.items }
        ensures later { failures self.old.fail.items self.old.calls
            ≤ failures self.new.fail.items self.new.calls }
        ensures failed { IsErrOf result ShelfFault.Failed →
            Rose (failures self.old.fail.items self.old.calls) (failures self.new.fail.items self.new.calls)
            ⊎ Lacks (held_in self.old.files.items) name.now }
        ensures quiet { IsErrOf result ShelfFault.Failed ⊎
            (failures self.new.fail.items self.new.calls ≡ failures self.old.fail.items self.old.calls) }
        ensures last { Marks result (record { saving = false; name = name.now }) self.old.last self.new.last }

        ensures due { IsTrue (is_due self.old.fail.items self.old.calls) → IsErr result }
        // No other call of a file that is held fails.
        ensures cause { IsErrOf result ShelfFault.Failed →
            IsTrue (is_due self.old.fail.items self.old.calls) ⊎ Lacks (held_in self.old.files.items) name.now }
        ensures same_files { self.new.files.items ≡ self.old.files.items }
        ensures same_fail { self.new.fail.items ≡ self.old.fail.items }
        ensures same_cut { self.new.cut ≡ self.old.cut }
        ensures counted { self.new.calls ≡ calls_after result self.old.calls }
    {
        let missed = Missed::new(alloc, false, name)?;
        let front = front_of(alloc, &self.files, name, cap)?;
        let is_due = tick(&mut self.calls, &self.fail);
        match front {
            Some(bytes) if !is_due => Ok(bytes),
            _ => {
                self.last = Some(missed);
                Err(ShelfFault::Failed)
            }
        }
    }

    /// A save that is made to fail leaves the first `cut` bytes under the name.
    fn save(&mut self, alloc: Global, name: &str, bytes: &[u8]) -> Result<(), ShelfFault>
        ensures ok { OnOk result (held_in self.new.files.items
            ≡ with_file (held_in self.old.files.items) name.now bytes.now) }
        ensures no_memory { IsErrOf result ShelfFault.NoMemory →
            held_in self.new.files.items ≡ held_in self.old.files.items }
        ensures others { OthersStand (held_in self.old.files.items) (held_in self.new.files.items) name.now }
        ensures later { failures self.old.fail.items self.old.calls
            ≤ failures self.new.fail.items self.new.calls }
        ensures failed { IsErrOf result ShelfFault.Failed →
            Rose (failures self.old.fail.items self.old.calls) (failures self.new.fail.items self.new.calls) }
        ensures quiet { IsErrOf result ShelfFault.Failed ⊎
            (failures self.new.fail.items self.new.calls ≡ failures self.old.fail.items self.old.calls) }
        ensures last { Marks result (record { saving = true; name = name.now }) self.old.last self.new.last }

        ensures due { IsTrue (is_due self.old.fail.items self.old.calls) → IsErr result }
        ensures cause { IsErrOf result ShelfFault.Failed → IsTrue (is_due self.old.fail.items self.old.calls) }
        ensures torn { IsErrOf result ShelfFault.Failed → held_in self.new.files.items
            ≡ with_file (held_in self.old.files.items) name.now (take self.old.cut bytes.now) }
        ensures same_fail { self.new.fail.items ≡ self.old.fail.items }
        ensures same_cut { self.new.cut ≡ self.old.cut }
        ensures counted { self.new.calls ≡ calls_after result self.old.calls }
    {
        let missed = Missed::new(alloc, true, name)?;
        let mut calls = self.calls;
        if tick(&mut calls, &self.fail) {
            put_file(alloc, &mut self.files, name, front_within(bytes, self.cut))?;
            self.calls = calls;
            self.last = Some(missed);
            return Err(ShelfFault::Failed);
        }
        put_file(alloc, &mut self.files, name, bytes)?;
        self.calls = calls;
        Ok(())
    }
}
