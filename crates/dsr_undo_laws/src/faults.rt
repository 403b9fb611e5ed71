// Why entries can't be taken back.

/// Why entries can't be taken back: the number of the entry, counted from 1, and the place of its
/// line, counted from 0.
#[derive(Clone, Copy, PartialEq, Eq)]
pub enum UndoFault {
    /// The place isn't in the image, or the line's new byte isn't there.
    Byte(u64, u64),
    /// The line would change a bit of a fixed field.
    FixedField(u64, u64),
}
