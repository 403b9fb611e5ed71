// Tags of facts.
ghost use Rattle.std.specs.Prelude.{◌≡◌};
ghost use Rattle.dsr_effect.specs.Rows as rows;

use dsr_update_theory::{Tag, Tags};

/// No tag.
pub const NO_TAGS: Tags = Tags {
    written: false,
    entry: false,
    fresh: false,
    any: false,
};

/// One tag alone.
pub fn only(tag: Tag) -> Tags
    ensures { result ≡ rows.only tag }
{
    match tag {
        Tag::Written => Tags {
            written: true,
            ..NO_TAGS
        },
        Tag::Entry => Tags {
            entry: true,
            ..NO_TAGS
        },
        Tag::Fresh => Tags {
            fresh: true,
            ..NO_TAGS
        },
        Tag::Any => Tags {
            any: true,
            ..NO_TAGS
        },
    }
}

/// The tags that are in one of the two, or in both.
pub fn joined(a: Tags, b: Tags) -> Tags
    ensures { result ≡ rows.joined a b }
{
    Tags {
        written: a.written || b.written,
        entry: a.entry || b.entry,
        fresh: a.fresh || b.fresh,
        any: a.any || b.any,
    }
}

/// Whether there is any tag among these.
pub fn is_some(tags: Tags) -> bool
    ensures { result ≡ rows.is_some tags }
{
    tags.written || tags.entry || tags.fresh || tags.any
}
