// Saves that nothing can break off half-way: the bytes go to a new file beside the old one, which
// takes its name once they are on the disk.
use crate::outside::ShelfFault;
use crate::system::fault_of;
use std::alloc::{AllocError, Global};
use std::fs::{self, Metadata, OpenFile, OpenOptions, Permissions};
use std::io::{self, ErrorKind, Write};
use std::os::unix::fs::{MetadataExt, OpenOptionsExt, PermissionsExt};
use std::path::{Path, PathBuf};
use std::rt::Files;

// How many names are tried for the new file. Other saves have some of them, and those that were
// killed may have left theirs behind.
const TRIES: u32 = 10_000;

// How many links are followed, as many as Linux follows.
const LINKS: u8 = 40;

// The bits of a mode that say who may do what.
const PERMISSION_BITS: u32 = 0o7777;

// What stands under the name of a save.
#[derive(Drop)]
enum Target {
    // A plain file with this mode, or nothing yet, at the end of the name's links.
    Plain { path: PathBuf, mode: Option<u32> },
    // What no file can replace: a device, a pipe, a folder, an open file that lost its name.
    Other,
}

// Saves the bytes. `NoMemory` comes only where nothing has changed.
pub(crate) fn save_whole<R: Files>(
    alloc: Global,
    rt: &R,
    name: &str,
    bytes: &[u8],
) -> Result<(), ShelfFault> {
    match target_of(alloc, rt, name) {
        Ok(Target::Plain { path, mode }) => told(replace(alloc, rt, path.as_str(), mode, bytes)),
        // Some bytes may be out before the error comes.
        Ok(Target::Other) => write_over(rt, name, bytes).or(Err(ShelfFault::Failed)),
        Err(error) => Err(fault_of(&error)),
    }
}

fn told(outcome: io::Result<()>) -> Result<(), ShelfFault> {
    match outcome {
        Ok(()) => Ok(()),
        Err(error) => Err(fault_of(&error)),
    }
}

// Writes to what stands there. `write_all` gives an error for a write that takes nothing of what is
// left.
fn write_over<R: Files>(rt: &R, name: &str, bytes: &[u8]) -> io::Result<()> {
    let mut file = fs::create(rt, name)?;
    file.write_all(bytes)
}

fn target_of<R: Files>(alloc: Global, rt: &R, name: &str) -> io::Result<Target> {
    match fs::metadata(rt, name) {
        Ok(found) if found.is_file() => file_target(alloc, rt, name),
        Ok(_) => Ok(Target::Other),
        Err(error) if error.kind() == ErrorKind::NotFound => {
            let (path, _) = end_of_links(alloc, rt, name)?;
            Ok(Target::Plain { path, mode: None })
        }
        Err(error) => Err(error),
    }
}

// The target where a plain file stands. It is opened first, since a folder that may be written lets
// its files be replaced by those who may not write them.
fn file_target<R: Files>(alloc: Global, rt: &R, name: &str) -> io::Result<Target> {
    let held = OpenOptions::new().write(true).open(rt, name)?.metadata()?;
    let (path, found) = end_of_links(alloc, rt, name)?;
    let mode = Some(held.mode() & PERMISSION_BITS);
    if path.as_str() == name {
        return Ok(Target::Plain { path, mode });
    }
    // A link of /proc leads to an open file, which may be gone from the path that the link tells,
    // or be another one than stands there.
    match found {
        Some(found) if is_same(&held, &found) => Ok(Target::Plain { path, mode }),
        Some(_) => Err(ErrorKind::ResourceBusy.into()),
        None => Ok(Target::Other),
    }
}

fn is_same(one: &Metadata, other: &Metadata) -> bool {
    one.dev() == other.dev() && one.ino() == other.ino()
}

// The path that the name stands for, where it is a link or a link to a link, and what stands there.
fn end_of_links<R: Files>(
    alloc: Global,
    rt: &R,
    name: &str,
) -> io::Result<(PathBuf, Option<Metadata>)> {
    let mut path = PathBuf::from_str(alloc, name)?;
    for _link in 0..LINKS {
        match fs::symlink_metadata(rt, path.as_path()) {
            Ok(found) if found.is_symlink() => {
                let next = rt.read_link(alloc, path.as_str())?;
                path.set_file_name(next.as_str())?;
            }
            Ok(found) => return Ok((path, Some(found))),
            Err(error) if error.kind() == ErrorKind::NotFound => return Ok((path, None)),
            Err(error) => return Err(error),
        }
    }
    Err(ErrorKind::FilesystemLoop.into())
}

// Puts a new file in the place of the one under the path. Where that fails, the old one stays.
fn replace<R: Files>(
    alloc: Global,
    rt: &R,
    path: &str,
    mode: Option<u32>,
    bytes: &[u8],
) -> io::Result<()> {
    let (name, file) = new_file(alloc, rt, path, mode)?;
    let moved = match fill(file, mode, bytes) {
        Ok(()) => fs::rename(rt, name.as_str(), path),
        Err(error) => Err(error),
    };
    match moved {
        Ok(()) => sync_folder(rt, path),
        // Where this fails too, the new file stays, as after a crash.
        Err(_) => drop(fs::remove_file(rt, name.as_str())),
    }
    moved
}

// Makes a file beside the path, under a name that nothing has. Its mode is the old one's from the
// start, so that bytes which few may read aren't there for all meanwhile.
fn new_file<R: Files>(
    alloc: Global,
    rt: &R,
    path: &str,
    mode: Option<u32>,
) -> io::Result<(PathBuf, R::File)> {
    let mut how = OpenOptions::new();
    how.write(true).create_new(true);
    if let Some(mode) = mode {
        how.mode(mode);
    }
    for number in 0..TRIES {
        let name = new_name(alloc, path, number)?;
        match how.open(rt, name.as_str()) {
            Ok(file) => return Ok((name, file)),
            Err(error) if error.kind() == ErrorKind::AlreadyExists => {}
            Err(error) => return Err(error),
        }
    }
    Err(ErrorKind::AlreadyExists.into())
}

// One of the names in the path's folder. It is short and has nothing of the path's own, which may be
// as long as a name can be.
fn new_name(alloc: Global, path: &str, number: u32) -> Result<PathBuf, AllocError> {
    let name = format!(in alloc; ".dsr-new-{number}")?;
    Path::new(path).with_file_name(alloc, name.as_str())
}

// Writes all of a new file to the disk, and closes it. Its mode is set once more, since the system
// takes bits off the one that a file is made with.
fn fill<F: Write + OpenFile + Drop>(
    mut file: F,
    mode: Option<u32>,
    bytes: &[u8],
) -> io::Result<()> {
    file.write_all(bytes)?;
    if let Some(mode) = mode {
        file.set_permissions(Permissions::from_mode(mode))?;
    }
    file.sync_all()
}

// Has the folder's new entry written to the disk. A failure here is none of the save: the bytes
// stand whole under the name already, and all that a crash of the system can do is to bring the old
// file back. Not every runtime or file system opens or syncs a folder.
fn sync_folder<R: Files>(rt: &R, path: &str) {
    let folder = match Path::new(path).parent() {
        Some(folder) if folder.as_str().is_empty() => ".",
        Some(folder) => folder.as_str(),
        None => "/",
    };
    if let Ok(folder) = fs::open(rt, folder) {
        drop(folder.sync_all());
    }
}
