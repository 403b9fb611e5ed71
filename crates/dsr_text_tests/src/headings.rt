// Headings, and what stands below them.
use anyhow::{Result, bail};

/// A heading and all that stands below it.
pub fn heading_of<'a>(part: &'a str) -> Result<(&'a str, &'a str)> {
    match part.split_once('\n') {
        Some(parts) => Ok(parts),
        None => bail!("a heading without its line feed: {part}"),
    }
}

/// A heading and the text below it, without the line feed that ends it.
pub fn headed_text<'a>(part: &'a str) -> Result<(&'a str, &'a str)> {
    let (heading, text) = heading_of(part)?;
    Ok((heading, text.strip_suffix('\n').unwrap_or(text)))
}

/// The name in a heading and what is wanted of it, without the remark.
pub fn name_and_wanted<'a>(heading: &'a str) -> (&'a str, &'a str) {
    let (words, _) = heading.split_once(" (").unwrap_or((heading, ""));
    words.split_once(' ').unwrap_or((words, ""))
}
