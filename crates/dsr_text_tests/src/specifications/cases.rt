// The cases of a section.
use crate::headings::headed_text;
use anyhow::{Result, bail};

/// What a case asks for.
#[derive(Clone, Copy)]
pub enum Wanted {
    Answer,
    Tables,
    Prefixes,
}

/// A text with its name.
#[derive(Clone, Copy)]
pub struct Case<'a> {
    pub name: &'a str,
    pub wanted: Wanted,
    pub text: &'a str,
}

/// The case of what stands behind the signs of a heading, up to the next heading.
pub fn case_of<'a>(part: &'a str) -> Result<Case<'a>> {
    let (heading, text) = headed_text(part)?;
    let (name, word) = heading.split_once(' ').unwrap_or((heading, ""));
    let wanted = match word {
        "" => Wanted::Answer,
        "tables" => Wanted::Tables,
        "prefixes" => Wanted::Prefixes,
        _ => bail!("{name} asks for {word}"),
    };
    Ok(Case { name, wanted, text })
}
