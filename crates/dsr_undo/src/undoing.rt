// All entries, taken back.
ghost use Rattle.std.specs.Prelude.{◌≤◌, IfErr, IfOk, length};
ghost use Rattle.dsr_undo_laws.specs.TakingBack.{AreTakenBack, IsRefused};
ghost use Rattle.dsr_meaning.specs.Limits.{most_bytes};

use crate::lines::lines_back;
use dsr_fixed_bits::FixedBits;
use dsr_image::Whole;
use dsr_ir::Spec;
use dsr_log::Log;
use dsr_undo_laws::UndoFault;

/// Takes the entries of a log back, the last first, and of each its lines, the last first. Takes no
/// memory. After a refusal the lines that were walked before are taken back.
pub fn undo(spec: &Spec, image: &mut Whole, log: &Log) -> Result<(), UndoFault>
    requires small { length image.old ≤ most_bytes }
    ensures back { IfOk result
        (λ _. AreTakenBack spec.now.base log.now.entries image.old image.new) }
    ensures refused { IfErr result
        (IsRefused spec.now.base 1 log.now.entries image.old image.new) }
{
    let fixed = FixedBits::new(&spec.base);
    let mut entries = log.entries();
    for done in 0..log.len() {
        let number = log.len() - done;
        let Some(entry) = entries.next_back() else {
            unreachable!();
        };
        if let Err(fault) = lines_back(&fixed, number as u64, entry.bytes(), image) {
            return Err(fault);
        }
    }
    Ok(())
}
