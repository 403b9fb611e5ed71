// A table of tags, and what its rows hand on to each other.
ghost use Rattle.std.specs.Prelude.{◌≡◌, ◌<◌, ◌↔◌, ℕ, All, IsTrue, MatchBool, length};
ghost use Rattle.dsr_effect.specs.Rows.{IsBetween, IsHandedOn, has_row_tag, open_tags, passed_tags};
ghost use Rattle.dsr_effect.specs.Settling.{AreHandedOn, AreKept, IsDone, handed_on, missing};
ghost use Rattle.dsr_update_theory.specs.declared.effects.Tag.{Tag as TagOf};

use crate::tags::{NO_TAGS, is_some, joined, only};
use dsr_update_theory::{Tag, Tags};

/// What one row hands on to another one.
#[derive(Clone, Copy)]
pub struct Flow {
    pub from: usize,
    pub to: usize,
    /// The tags are handed on as they are, and not as `Any`.
    pub keeps: bool,
    /// What is written, and what is fresh, isn't handed on.
    pub without_written: bool,
    pub without_fresh: bool,
}

impl Flow {
    // The tags that are handed on, as they are.
    fn open_tags(self, tags: Tags) -> Tags
        ensures { result ≡ open_tags self tags }
    {
        Tags {
            written: tags.written && !self.without_written,
            fresh: tags.fresh && !self.without_fresh,
            ..tags
        }
    }

    // What comes of them in the other row.
    fn passed_tags(self, tags: Tags) -> Tags
        ensures { result ≡ passed_tags self tags }
    {
        let open = self.open_tags(tags);
        if self.keeps {
            open
        } else if is_some(open) {
            only(Tag::Any)
        } else {
            NO_TAGS
        }
    }
}

// Hands on along one flow, and tells whether the other row grew.
fn hand_on(flow: Flow, rows: &mut [Tags]) -> bool
    requires between { IsBetween (length rows.now) flow }
    ensures rows { rows.new ≡ handed_on flow rows.old }
    ensures progress { MatchBool result (missing rows.new < missing rows.old)
        (rows.new ≡ rows.old) }
{
    let tags = rows[flow.from];
    if !is_some(tags) {
        return false;
    }
    let old = rows[flow.to];
    let new = joined(old, flow.passed_tags(tags));
    rows[flow.to] = new;
    new != old
}

// Hands on along each flow once, and tells whether some row grew.
fn hand_on_all(flows: &[Flow], rows: &mut [Tags]) -> bool
    requires between { All (IsBetween (length rows.now)) flows.now }
    ensures length { length rows.new ≡ length rows.old }
    ensures sound { AreHandedOn flows.now rows.old rows.new }
    ensures kept { AreKept rows.old rows.new }
    ensures progress { MatchBool result (missing rows.new < missing rows.old)
        (All (IsDone rows.new) flows.now) }
{
    let mut grew = false;
    for flow in flows {
        if hand_on(*flow, rows) {
            grew = true;
        }
    }
    grew
}

/// Hands on until no row grows.
pub fn settle(flows: &[Flow], rows: &mut [Tags])
    requires between { All (IsBetween (length rows.now)) flows.now }
    ensures length { length rows.new ≡ length rows.old }
    ensures exactly { (row : ℕ) (tag : TagOf) → IsTrue (has_row_tag rows.new row tag)
        ↔ IsHandedOn flows.now rows.old row tag }
{
    while hand_on_all(flows, rows) {}
}
