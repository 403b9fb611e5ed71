// The outside world as traits, with the types that they speak of.
ghost use Rattle.std.specs.Prelude.{◌≡◌, ◌⊎◌, ◌≤◌, ℕ, List, Option, IfOk, OnOk, IsErrOf, vec_len, true, false};
ghost use Rattle.dsr_store.specs.Files.{Files, IsFrontOf, Lacks, with_file, OthersStand};

use std::alloc::{AllocError, Global};
use std::marker::Model;

/// Why a call of a shelf gave nothing.
#[derive(Clone, Copy)]
pub enum ShelfFault {
    /// The file isn't there, or the outside refused or broke off the call.
    Failed,
    /// Memory ran out. What the shelf holds, its count and its mark are as before the call.
    NoMemory,
}

impl From<AllocError> for ShelfFault {
    ghost use Rattle.dsr_store.specs.declared.outside.ShelfFault.TheVariants.{NoMemory};

    ghost from_gives = { λ _ fault. fault ≡ NoMemory };

    fn from(_: AllocError) -> Self {
        ShelfFault::NoMemory
    }
}

/// The name of a file, as bytes.
#[derive(Drop)]
pub struct Label(Vec<u8>);

impl Model for Label {
    ghost use Rattle.std.specs.Prelude.{ℕ, List};

    ghost Value = { List ℕ };

    ghost view = { λ label. label.0.items };
}

impl Label {
    /// The name of these bytes.
    pub fn new(bytes: Vec<u8>) -> Label
        ensures { result ≡ bytes.items }
    {
        Label(bytes)
    }

    /// The bytes of the name.
    pub fn bytes(&self) -> &[u8]
        ensures { result.now ≡ self.now }
    {
        &self.0
    }
}

/// What a file holds.
#[derive(Drop)]
pub struct Content(Vec<u8>);

impl Model for Content {
    ghost use Rattle.std.specs.Prelude.{ℕ, List};

    ghost Value = { List ℕ };

    ghost view = { λ content. content.0.items };
}

impl Content {
    /// The content of these bytes.
    pub fn new(bytes: Vec<u8>) -> Content
        ensures { result ≡ bytes.items }
    {
        Content(bytes)
    }

    /// The bytes of the content.
    pub fn bytes(&self) -> &[u8]
        ensures { result.now ≡ self.now }
    {
        &self.0
    }
}

/// A file that a shelf in memory holds.
#[derive(Drop)]
pub struct Held {
    pub name: Label,
    pub bytes: Content,
}

/// A call that failed.
#[derive(Drop)]
pub struct Missed {
    /// Whether it was a save; else it was a load.
    pub saving: bool,
    /// The file that was asked for.
    pub name: Label,
}

impl Missed {
    // The mark of a call of this name, made before the call can fail.
    pub(crate) fn new(alloc: Global, saving: bool, name: &str) -> Result<Missed, AllocError>
        ensures { IfOk result (λ missed. missed ≡ record { saving = saving; name = name.now }) }
    {
        let name = Label::new(Vec::from_slice(alloc, name.as_bytes())?);
        Ok(Missed { saving, name })
    }
}

/// Named files.
pub trait Shelf {
    ghost use Rattle.dsr_store.specs.Causes.{Rose, Marks};
    ghost use Rattle.dsr_store.specs.declared.outside.Missed.{Missed};
    ghost use Rattle.dsr_store.specs.declared.outside.ShelfFault.{ShelfFault};

    /// The files that are held, where the shelf tells them.
    ghost held: { Self → Option Files };

    /// A count of failures, which never falls. Only a call that answers `Failed` may change it.
    ghost faults: { Self → ℕ };

    /// The last call that failed, if one did.
    ghost last: { Self → Option Missed };

    /// Reads the file of this name, and no more than its first `cap` bytes.
    fn load(&mut self, alloc: Global, name: &str, cap: u64) -> Result<Vec<u8>, ShelfFault>
        ensures capped { IfOk result (λ bytes. vec_len bytes ≤ cap) }
        ensures front { IfOk result (λ bytes. IsFrontOf (held self.old) name.now cap bytes.items) }
        ensures held { held self.new ≡ held self.old }
        ensures later { faults self.old ≤ faults self.new }
        ensures failed { IsErrOf result ShelfFault.Failed →
            Rose (faults self.old) (faults self.new) ⊎ Lacks (held self.old) name.now }
        ensures quiet { IsErrOf result ShelfFault.Failed ⊎ (faults self.new ≡ faults self.old) }
        ensures last { Marks result (record { saving = false; name = name.now }) (last self.old)
            (last self.new) };

    /// Makes these the bytes of the file of this name, which need not be held yet. After `Failed`
    /// that file may hold anything, or be gone.
    fn save(&mut self, alloc: Global, name: &str, bytes: &[u8]) -> Result<(), ShelfFault>
        ensures ok { OnOk result (held self.new ≡ with_file (held self.old) name.now bytes.now) }
        ensures no_memory { IsErrOf result ShelfFault.NoMemory → held self.new ≡ held self.old }
        ensures others { OthersStand (held self.old) (held self.new) name.now }
        ensures later { faults self.old ≤ faults self.new }
        ensures failed { IsErrOf result ShelfFault.Failed → Rose (faults self.old) (faults self.new) }
        ensures quiet { IsErrOf result ShelfFault.Failed ⊎ (faults self.new ≡ faults self.old) }
        ensures last { Marks result (record { saving = true; name = name.now }) (last self.old)
            (last self.new) };
}

/// Why a call of a sink did not write its piece.
#[derive(Clone, Copy)]
pub enum SinkFault {
    /// The outside refused or broke off the write.
    Failed,
    /// Memory ran out. Nothing was written, and the count is as before the call.
    NoMemory,
}

impl From<AllocError> for SinkFault {
    ghost use Rattle.dsr_store.specs.declared.outside.SinkFault.TheVariants.{NoMemory};

    ghost from_gives = { λ _ fault. fault ≡ NoMemory };

    fn from(_: AllocError) -> Self {
        SinkFault::NoMemory
    }
}

/// An output that is written piece by piece.
pub trait Sink {
    ghost use Rattle.dsr_store.specs.Causes.{Rose};
    ghost use Rattle.dsr_store.specs.Written.{appended, AppendsFront};
    ghost use Rattle.dsr_store.specs.declared.outside.SinkFault.{SinkFault};

    /// All that was written, where the sink tells it.
    ghost written: { Self → Option (List ℕ) };

    /// A count of failures, which never falls. Only a call that answers `Failed` may change it.
    ghost faults: { Self → ℕ };

    /// Writes the piece behind what was written before.
    fn put(&mut self, alloc: Global, piece: &[u8]) -> Result<(), SinkFault>
        ensures ok { OnOk result (written self.new ≡ appended (written self.old) piece.now) }
        ensures no_memory { IsErrOf result SinkFault.NoMemory → written self.new ≡ written self.old }
        ensures front { AppendsFront (written self.old) (written self.new) piece.now }
        ensures later { faults self.old ≤ faults self.new }
        ensures failed { IsErrOf result SinkFault.Failed → Rose (faults self.old) (faults self.new) }
        ensures quiet { IsErrOf result SinkFault.Failed ⊎ (faults self.new ≡ faults self.old) };
}
