// Which line may stand behind which.
ghost use Rattle.std.specs.Prelude.{◌≡◌, ◌+◌, ◌<◌, ◌^◌};
ghost use Rattle.dsr_report_read.specs.Lines as said;
ghost use Rattle.dsr_report_read.specs.Reads.{IsKindOf};

use crate::lines::{Kind, Line, State};
use crate::numbers::is_ahead;

fn is_outer(kind: Kind) -> bool
    ensures { result ≡ said.is_outer kind }
{
    matches!(kind, Kind::Update | Kind::End)
}

fn is_reset(kind: Kind) -> bool
    ensures { result ≡ said.is_reset kind }
{
    matches!(kind, Kind::Reset)
}

fn is_byte(kind: Kind) -> bool
    ensures { result ≡ said.is_byte kind }
{
    matches!(kind, Kind::Byte)
}

/// Whether a line of this kind may follow; none is the last kind where no line stands before it.
pub fn may_follow(last: Option<Kind>, kind: Kind) -> bool
    ensures { result ≡ said.may_follow last kind }
{
    match last {
        None => is_outer(kind),
        Some(Kind::Update) => true,
        Some(Kind::Reset) => !is_reset(kind),
        Some(Kind::Set) => !is_reset(kind),
        Some(Kind::Byte) => is_outer(kind) || is_byte(kind),
        Some(Kind::End) => false,
    }
}

/// The kind that the front of the line tells.
pub fn kind_of(text: &[u8]) -> Option<Kind>
    ensures { IsKindOf text.now result }
{
    if is_ahead(b"update ", text) {
        return Some(Kind::Update);
    }
    if is_ahead(b"updates ", text) {
        return Some(Kind::End);
    }
    if is_ahead(b"  reset ", text) {
        return Some(Kind::Reset);
    }
    if is_ahead(b"  set ", text) {
        return Some(Kind::Set);
    }
    if is_ahead(b"  byte ", text) {
        return Some(Kind::Byte);
    }
    None
}

/// What stands before the next line.
pub fn moved(state: State, line: Line) -> State
    requires { state.count + 1 < 2 ^ 64 }
    ensures { result ≡ said.moved state line }
{
    match line {
        Line::Update(_) => State {
            count: state.count + 1,
            last: Some(Kind::Update),
        },
        Line::Reset(_) => State {
            count: state.count,
            last: Some(Kind::Reset),
        },
        Line::Set(_) => State {
            count: state.count,
            last: Some(Kind::Set),
        },
        Line::Byte(_) => State {
            count: state.count,
            last: Some(Kind::Byte),
        },
        Line::End => State {
            count: state.count,
            last: Some(Kind::End),
        },
    }
}
