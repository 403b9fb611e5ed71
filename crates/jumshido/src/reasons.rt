// Why a file can't be read or saved, as the system tells it.
use dsr_ir::NoMemory;
use dsr_wording::Text;
use std::alloc::Global;
use std::fs::{self, OpenOptions};
use std::os::unix::fs::MetadataExt;
use std::path::Path;
use std::rt::Files;

// Whether there is a folder of this name.
fn is_folder<R: Files>(rt: &R, name: &str) -> bool {
    match fs::metadata(rt, name) {
        Ok(found) => found.is_dir(),
        Err(_) => false,
    }
}

// Why a file can't be read, as far as that can be told now.
fn push_read_reason<R: Files>(text: &mut Text, rt: &R, name: &str) {
    if is_folder(rt, name) {
        text.push("it is a folder");
        return;
    }
    match fs::open(rt, name) {
        Ok(_file) => text.push("reading it failed"),
        Err(error) => text.shown(&error),
    }
}

// The folder of a file.
fn folder_of(name: &str) -> &str {
    match Path::new(name).parent() {
        Some(folder) if folder.as_str().is_empty() => ".",
        Some(folder) => folder.as_str(),
        None => "/",
    }
}

const NO_FILE: &str = "no file can be made in the folder {}, for want of leave or of room";

// Why no file can be made in a folder, as far as can be told without making one.
fn push_folder_reason<R: Files>(text: &mut Text, rt: &R, name: &str) {
    let folder = folder_of(name);
    match fs::metadata(rt, folder) {
        Ok(found) if !found.is_dir() => text.fill("{} is no folder", &[folder.as_bytes()]),
        Ok(_found) => text.fill(NO_FILE, &[folder.as_bytes()]),
        Err(error) => {
            text.fill("the folder {}: ", &[folder.as_bytes()]);
            text.shown(&error);
        }
    }
}

// Whether there is a file of this name that can't be written; then its reason is appended.
fn is_held_back<R: Files>(text: &mut Text, rt: &R, name: &str) -> bool {
    if fs::metadata(rt, name).is_err() {
        return false;
    }
    match OpenOptions::new().write(true).open(rt, name) {
        Ok(_file) => false,
        Err(error) => {
            text.shown(&error);
            true
        }
    }
}

// Why a file can't be saved.
fn push_save_reason<R: Files>(text: &mut Text, rt: &R, name: &str) {
    if is_folder(rt, name) {
        text.push("it is a folder");
    } else if !is_held_back(text, rt, name) {
        push_folder_reason(text, rt, name);
    }
}

/// Why a call for a file failed.
pub fn reason<R: Files>(
    alloc: Global,
    rt: &R,
    saving: bool,
    name: &str,
) -> Result<String, NoMemory> {
    let mut text = Text::new(alloc);
    text.push(name);
    if saving {
        text.push(" can't be saved: ");
        push_save_reason(&mut text, rt, name);
    } else {
        text.push(" can't be read: ");
        push_read_reason(&mut text, rt, name);
    }
    text.push("\n");
    text.whole()
}

/// Whether two names are those of one file.
pub fn is_same_file<R: Files>(rt: &R, name: &str, other: &str) -> bool {
    match (fs::metadata(rt, name), fs::metadata(rt, other)) {
        (Ok(one), Ok(two)) => one.dev() == two.dev() && one.ino() == two.ino(),
        _ => false,
    }
}
