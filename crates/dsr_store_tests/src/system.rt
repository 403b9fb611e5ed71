// Files and the output of the system.
use crate::calls::{Call, first_wrong, is_missed, refusals};
use dsr_store::{FileShelf, Shelf, StdSink};
use std::alloc::{AllocError, Global};
use std::fs::{self, Permissions};
use std::io;
use std::os::unix::fs::{PermissionsExt, symlink};
use std::test::Fail;

// Calls in a row. Behind them so many have failed, and the last one was of this file.
#[derive(Clone, Copy)]
struct Stage<'a> {
    calls: &'a [Call<'a>],
    faults: u64,
    saving: bool,
    missed: &'a str,
}

fn behind<'a>(calls: &'a [Call<'a>], faults: u64, saving: bool, missed: &'a str) -> Stage<'a> {
    Stage {
        calls,
        faults,
        saving,
        missed,
    }
}

// Whether all stages end so over the files of one folder.
fn are_right(rt: &HostRuntime, alloc: Global, stages: &[Stage<'_>]) -> Result<bool, AllocError> {
    let mut shelf = FileShelf {
        rt,
        faults: 0,
        last: None,
    };
    for stage in stages {
        let wrong = first_wrong(alloc, &mut shelf, stage.calls)?;
        let is_told = shelf.faults == stage.faults;
        if wrong.is_some() || !is_told || !is_missed(&shelf.last, stage.saving, stage.missed) {
            return Ok(false);
        }
    }
    Ok(true)
}

// More than one read gives.
const WHOLE: [u8; 5000] = [7; 5000];

const SAVED: &str = "shelf-test.bin";

const NAME: &str = "replaced.bin";

const LINK: &str = "replaced.link";

// A save that was killed left this one.
const LEFT: &str = ".dsr-new-0";

const REPLACING: [Call<'static>; 5] = [
    Call::Save(LINK, b"new", true),
    Call::Load(NAME, 99, Some(b"new")),
    Call::Load(LEFT, 99, Some(b"left")),
    Call::Load(".dsr-new-1", 99, None),
    Call::Save(".", b"new", false),
];

// How many bytes a name may have.
const LONGEST: usize = 255;

fn link(rt: &HostRuntime) -> io::Result<()> {
    fs::set_permissions(rt, NAME, Permissions::from_mode(0o640))?;
    symlink(rt, NAME, LINK)
}

// Whether the file has the mode that it had, and the link still is one; all is removed.
fn is_kept(rt: &HostRuntime) -> io::Result<bool> {
    let mode = fs::metadata(rt, NAME)?.permissions().mode() & 0o777;
    let stays = fs::symlink_metadata(rt, LINK)?.is_symlink();
    for file in [SAVED, NAME, LINK, LEFT] {
        fs::remove_file(rt, file)?;
    }
    Ok(mode == 0o640 && stays)
}

// Whether files are saved and loaded so, also those that another save is to replace.
fn are_saved(rt: &HostRuntime, alloc: Global) -> Result<bool, AllocError> {
    let saved = [
        Call::Save(SAVED, &WHOLE, true),
        Call::Load(SAVED, 10000, Some(&WHOLE)),
        Call::Load(SAVED, 4097, Some(&WHOLE[..4097])),
        Call::Load(SAVED, 3, Some(&WHOLE[..3])),
        Call::Load(SAVED, 0, Some(b"")),
        Call::Save(SAVED, b"short", true),
        Call::Load(SAVED, 10000, Some(b"short")),
        Call::Load("absent.bin", 9, None),
    ];
    let prepared = [
        Call::Save(NAME, b"longer than the new bytes", true),
        Call::Save(LEFT, b"left", true),
        Call::Save("absent/file.bin", b"x", false),
    ];
    are_right(
        rt,
        alloc,
        &[
            behind(&saved, 1, false, "absent.bin"),
            behind(&prepared, 2, true, "absent/file.bin"),
        ],
    )
}

#[test]
fn files_are_saved_and_replaced(rt: HostRuntime) -> Result<(), Fail> {
    let alloc = rt.alloc();
    assert!(rt; are_saved(&rt, alloc)?);
    link(&rt)?;
    assert!(rt; are_right(&rt, alloc, &[behind(&REPLACING, 2, true, ".")])?);
    assert!(rt; is_kept(&rt)?);
    Ok(())
}

// Whether a file of this name is saved, and replaced; it is removed.
fn is_saved_twice(rt: &HostRuntime, alloc: Global, name: &str) -> io::Result<bool> {
    let mut shelf = FileShelf {
        rt,
        faults: 0,
        last: None,
    };
    let is_saved = shelf.save(alloc, name, b"old").is_ok();
    let is_replaced = shelf.save(alloc, name, b"new").is_ok();
    let is_new = match shelf.load(alloc, name, 9) {
        Ok(bytes) => bytes.as_slice() == b"new".as_slice(),
        Err(_) => false,
    };
    fs::remove_file(rt, name)?;
    Ok(is_saved && is_replaced && is_new)
}

#[test]
fn longest_names_are_saved(rt: HostRuntime) -> Result<(), Fail> {
    let alloc = rt.alloc();
    let name = "n".repeat(alloc, LONGEST)?;
    assert!(rt; is_saved_twice(&rt, alloc, name.as_str())?);
    Ok(())
}

#[test]
fn standard_output_takes_a_line(rt: HostRuntime) -> Result<(), Fail> {
    let mut out = StdSink { rt: &rt, faults: 0 };
    assert!(rt; refusals(rt.alloc(), &mut out, &["a line\n"])? == 0);
    assert!(rt; out.faults == 0);
    Ok(())
}
