// Files that are kept in a list.
ghost use Rattle.std.specs.Prelude.{◌≡◌, ◌<◌, length, take, IfSome, MatchOption, IsSomeAnd, IfOk, OnOk, OnErr, None};
ghost use Rattle.std.specs.FinMap as map;
ghost use Rattle.dsr_store.specs.Keeping.{files_of, place_from};

use crate::outside::{Content, Held, Label};
use std::alloc::{AllocError, Global};

fn place_of(files: &[Held], name: &str) -> Option<usize>
    ensures first { result ≡ place_from 0 name.now files.now }
    ensures within { IfSome result (λ place. place < length files.now) }
{
    for (place, file) in files.iter().enumerate() {
        if name.as_bytes() == file.name.bytes() {
            return Some(place);
        }
    }
    None
}

// The first bytes of the file of this name, at most `cap`, where it is held.
pub(crate) fn front_of(
    alloc: Global,
    files: &[Held],
    name: &str,
    cap: u64,
) -> Result<Option<Vec<u8>>, AllocError>
    ensures { IfOk result (λ found. MatchOption found
        (map.get (files_of files.now) name.now ≡ None)
        (λ bytes. IsSomeAnd (map.get (files_of files.now) name.now) (λ whole. bytes.items ≡ take cap whole))) }
{
    match place_of(files, name) {
        None => Ok(None),
        Some(place) => {
            let whole = files[place].bytes.bytes();
            if cap < whole.len() as u64 {
                Ok(Some(Vec::from_slice(alloc, &whole[..cap as usize])?))
            } else {
                Ok(Some(Vec::from_slice(alloc, whole)?))
            }
        }
    }
}

// Writes a file over the one of its name, or behind all others where none has the name.
pub(crate) fn put_file(
    alloc: Global,
    files: &mut Vec<Held>,
    name: &str,
    bytes: &[u8],
) -> Result<(), AllocError>
    ensures ok { OnOk result (files_of files.new.items
        ≡ map.insert (files_of files.old.items) name.now bytes.now) }
    ensures err { OnErr result (files.new.items ≡ files.old.items) }
{
    let content = Content::new(Vec::from_slice(alloc, bytes)?);
    match place_of(files, name) {
        Some(place) => files[place].bytes = content,
        None => {
            let name = Label::new(Vec::from_slice(alloc, name.as_bytes())?);
            files.push(Held {
                name,
                bytes: content,
            })?;
        }
    }
    Ok(())
}
