// Headings, and what stands below them.
use anyhow::{Result, bail};

/// A heading and all that stands below it.
pub fn heading_of<'a>(part: &'a str) -> Result<(&'a str, &'a str)> {
    match part.split_once('\n') {
        Some(parts) => Ok(parts),
        None => bail!("a heading without its line feed: {part}"),
    }
}

/// The name in a heading and the image behind it.
pub fn name_and_image<'a>(heading: &'a str) -> Result<(&'a str, &'a str)> {
    match heading.split_once(' ') {
        Some(words) => Ok(words),
        None => bail!("a heading without an image: {heading}"),
    }
}
