// The structures that gdb prints, with the places and sizes of their members.
use dsr_ir::NoMemory;
use dsr_wording::Text;
use std::alloc::Global;

/// A member of a structure that can be a field: a number or an address, or an array of these.
pub struct Member {
    pub name: String,
    /// The byte at which it begins.
    pub start: u64,
    /// How many bytes an entry has: 1, 2, 4 or 8.
    pub width: u64,
    /// How many entries an array has.
    pub count: Option<u64>,
    /// The name of the type to which an address leads.
    pub target: Option<String>,
}

impl Drop for Member {
    fn drop(self) {
        let Member {
            name: _,
            start: _,
            width: _,
            count: _,
            target: _,
        } = self;
    }
}

/// A structure.
pub struct Structure {
    pub name: String,
    pub members: Vec<Member>,
    /// How many bytes it has.
    pub size: u64,
}

impl Drop for Structure {
    fn drop(self) {
        let Structure {
            name: _,
            members: _,
            size: _,
        } = self;
    }
}

// A line that tells a member.
#[derive(Clone, Copy)]
struct Line<'a> {
    start: u64,
    size: u64,
    declaration: &'a str,
}

fn number_of(text: &str) -> Option<u64> {
    text.trim().parse::<u64>().ok()
}

// The place and the size that a line tells: `PLACE | SIZE`. A member of some bits has another
// place.
fn extent_of(numbers: &str) -> Option<(u64, u64)> {
    let (start, size) = numbers.split_once('|')?;
    Some((number_of(start)?, number_of(size)?))
}

// What stands before and behind a mark in a text that begins with a front.
fn split_behind<'a>(text: &'a str, front: &str, mark: &str) -> Option<(&'a str, &'a str)> {
    text.strip_prefix(front)?.split_once(mark)
}

// What a line tells of a member: `/* PLACE | SIZE */ DECLARATION;`.
fn line_of(text: &str) -> Option<Line<'_>> {
    let (numbers, rest) = split_behind(text, "/*", "*/")?;
    let declaration = rest.trim().strip_suffix(";")?;
    let (start, size) = extent_of(numbers)?;
    Some(Line {
        start,
        size,
        declaration,
    })
}

// The size of a structure: `/* total size (bytes): SIZE */`, or `/* total size: SIZE bytes */`.
fn size_of(text: &str) -> Option<u64> {
    let (_, rest) = split_behind(text, "/* total size", ":")?;
    number_of(rest.trim().split(' ').next()?)
}

// A declaration without the brackets of an array, and how many entries that has.
#[derive(Clone, Copy)]
struct Shape<'a> {
    front: &'a str,
    count: Option<u64>,
}

// The shape of a declaration; none for a function, and for an array of arrays.
fn shape_of(declaration: &str) -> Option<Shape<'_>> {
    if declaration.contains('(') {
        return None;
    }
    match declaration.split_once('[') {
        Some((front, rest)) => Some(Shape {
            front,
            count: Some(number_of(rest.strip_suffix("]")?)?),
        }),
        None => Some(Shape {
            front: declaration,
            count: None,
        }),
    }
}

// The name of a type without the words that say how its values are used.
fn unqualified(kind: &str) -> &str {
    let kind = kind.trim();
    let kind = kind.strip_prefix("const ").unwrap_or(kind);
    kind.strip_prefix("volatile ").unwrap_or(kind)
}

// The name of the type to which an address leads. Types are often named as their structures, so the
// word `struct` may be missing.
fn target_of(front: &str) -> Option<&str> {
    let (kind, rest) = front.split_once('*')?;
    if rest.contains('*') {
        return None;
    }
    let kind = unqualified(kind);
    Some(kind.strip_prefix("struct ").unwrap_or(kind))
}

// What is declared: the last word, without the signs of an address.
fn name_of(front: &str) -> Option<&str> {
    let (_, name) = front.rsplit_once(' ')?;
    Some(name.trim_start_matches('*'))
}

// How many bytes an entry has, where a field can have as many.
fn width_of(size: u64, count: Option<u64>) -> Option<u64> {
    let width = size.checked_div(count.unwrap_or(1))?;
    match width {
        1 | 2 | 4 | 8 => Some(width),
        _ => None,
    }
}

// What a line tells of a member, where a field can be made of it.
#[derive(Clone, Copy)]
struct Told<'a> {
    name: &'a str,
    start: u64,
    width: u64,
    shape: Shape<'a>,
}

// What a line tells of a member.
fn told_by(text: &str) -> Option<Told<'_>> {
    let line = line_of(text)?;
    let shape = shape_of(line.declaration)?;
    Some(Told {
        name: name_of(shape.front)?,
        start: line.start,
        width: width_of(line.size, shape.count)?,
        shape,
    })
}

// A copy of a text, if there is one.
fn copied(alloc: Global, text: Option<&str>) -> Result<Option<String>, NoMemory> {
    match text {
        Some(text) => Ok(Some(text.to_string(alloc)?)),
        None => Ok(None),
    }
}

// A member as it is told.
fn member_of(alloc: Global, told: &Told<'_>) -> Result<Member, NoMemory> {
    let name = told.name.to_string(alloc)?;
    let target = copied(alloc, target_of(told.shape.front))?;
    Ok(Member {
        name,
        start: told.start,
        width: told.width,
        count: told.shape.count,
        target,
    })
}

// The name of a structure, or a number where it has none.
fn name_or_number(alloc: Global, name: &str, place: usize) -> Result<String, NoMemory> {
    let mut text = Text::new(alloc);
    text.push(name);
    if name.is_empty() {
        text.push("unnamed_");
        text.number(place.saturating_add(1) as u64);
    }
    text.whole()
}

// How many braces are open behind a line.
fn depth_behind(depth: u64, line: &str) -> u64 {
    if line.ends_with("{") {
        depth.saturating_add(1)
    } else if line.starts_with("}") {
        depth.saturating_sub(1)
    } else {
        depth
    }
}

// Adds what a line tells of a structure: a member, or the size.
fn add_line(alloc: Global, structure: &mut Structure, line: &str) -> Result<(), NoMemory> {
    if let Some(size) = size_of(line) {
        structure.size = size;
    }
    if let Some(told) = told_by(line) {
        structure.members.push(member_of(alloc, &told)?)?;
    }
    Ok(())
}

// Adds what lines tell of a structure. What stands in inner braces is passed over.
fn add_lines(alloc: Global, structure: &mut Structure, text: &str) -> Result<(), NoMemory> {
    let mut depth = 0u64;
    for line in text.lines() {
        let line = line.trim();
        let behind = depth_behind(depth, line);
        if depth == 0 && behind == 0 {
            add_line(alloc, structure, line)?;
        }
        depth = behind;
    }
    Ok(())
}

// The structure that begins with its name and a brace; of 0 bytes where no size is told.
fn structure_of(alloc: Global, text: &str, place: usize) -> Result<Structure, NoMemory> {
    let (name, rest) = text.split_once('{').unwrap_or((text, ""));
    let name = name_or_number(alloc, name.trim(), place)?;
    let mut structure = Structure {
        name,
        members: Vec::new(alloc),
        size: 0,
    };
    add_lines(alloc, &mut structure, rest)?;
    Ok(structure)
}

/// Whether there is a structure of this name.
pub fn is_known(structures: &[Structure], name: &str) -> bool {
    for structure in structures {
        if structure.name.as_str() == name {
            return true;
        }
    }
    false
}

// Adds a structure that is whole, once.
fn add(structures: &mut Vec<Structure>, structure: Structure) -> Result<(), NoMemory> {
    if structure.size > 0 && !is_known(structures, structure.name.as_str()) {
        structures.push(structure)?;
    }
    Ok(())
}

/// The structures that stand in what gdb prints, each once. One that isn't whole has no bytes, and
/// is passed over.
pub fn structures_of(alloc: Global, text: &str) -> Result<Vec<Structure>, NoMemory> {
    let mut structures = Vec::new(alloc);
    for part in text.split("type = struct ").skip(1) {
        let structure = structure_of(alloc, part, structures.len())?;
        add(&mut structures, structure)?;
    }
    Ok(structures)
}
