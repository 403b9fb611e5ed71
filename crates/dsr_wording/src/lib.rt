//! Texts for people, and small pieces of them: names, numbers, signs.
#![tactic(auto)]

mod text;

ghost use Rattle.std.specs.Prelude.{◌≡◌, ◌-◌, ◌^◌, min};
ghost use Rattle.dsr_wording.specs.Signs.{sign_text};

use dsr_ir::Op;
pub use text::Text;

/// The bytes of a name as a text.
pub fn text_of(bytes: &[u8]) -> &str {
    str::from_utf8(bytes).unwrap_or("?")
}

/// The number of what stands at a place of a table.
pub fn numbered(place: usize) -> u32
    ensures { result ≡ min place (2 ^ 32 - 1) }
{
    u32::try_from(place).unwrap_or(u32::MAX)
}

/// How a comparison is written.
pub fn sign_of(op: Op) -> &'static str
    ensures { result.now ≡ sign_text op }
{
    match op {
        Op::Eq => "=",
        Op::Ne => "!=",
        Op::Lt => "<",
        Op::Le => "<=",
        Op::Gt => ">",
        Op::Ge => ">=",
    }
}
