// Shelves and outputs in memory.
use crate::calls::{Call, first_wrong, is_missed, refusals};
use dsr_store::{Content, Held, Label, MemorySink, SureShelf, SureSink, TornShelf};
use std::alloc::{AllocError, Global};
use std::test::Fail;

// Of the shelf in memory the third and the sixth call are made to fail.
const FAILING: [Call<'static>; 8] = [
    Call::Load("a", 9, Some(b"xyz")),
    Call::Load("a", 2, Some(b"xy")),
    Call::Load("a", 9, None),
    Call::Load("b", 9, None),
    Call::Save("b", b"uv", true),
    Call::Save("a", b"new", false),
    Call::Load("a", 9, Some(b"")),
    Call::Load("b", 1, Some(b"u")),
];

const SURE: [Call<'static>; 4] = [
    Call::Load("a", 3, Some(b"xyz")),
    Call::Load("b", 9, None),
    Call::Save("a", b"new", true),
    Call::Load("a", 2, Some(b"ne")),
];

// A file `a`.
pub fn one_file(alloc: Global, bytes: &[u8]) -> Result<Vec<Held>, AllocError> {
    let name = Label::new(Vec::from_slice(alloc, b"a")?);
    let bytes = Content::new(Vec::from_slice(alloc, bytes)?);
    Ok(vec![in alloc; Held { name, bytes }]?)
}

fn memory_is_right(alloc: Global) -> Result<bool, AllocError> {
    let fail = vec![in alloc; 3, 6]?;
    let mut shelf = TornShelf {
        files: one_file(alloc, b"xyz")?,
        fail,
        cut: 0,
        calls: 0,
        last: None,
    };
    let wrong = first_wrong(alloc, &mut shelf, &FAILING)?;
    Ok(wrong.is_none() && is_missed(&shelf.last, true, "a"))
}

fn sure_is_right(alloc: Global) -> Result<bool, AllocError> {
    let files = one_file(alloc, b"xyz")?;
    let mut shelf = SureShelf { files, last: None };
    let wrong = first_wrong(alloc, &mut shelf, &SURE)?;
    Ok(wrong.is_none() && is_missed(&shelf.last, false, "b"))
}

fn memory_is_put(alloc: Global) -> Result<bool, AllocError> {
    let mut out = MemorySink {
        bytes: Vec::new(alloc),
        fail: vec![in alloc; 2]?,
        calls: 0,
    };
    let refused = refusals(alloc, &mut out, &["ab", "cd", "ef"])?;
    Ok(refused == 1 && out.bytes.as_slice() == b"abef".as_slice())
}

fn sure_is_put(alloc: Global) -> Result<bool, AllocError> {
    let mut out = SureSink {
        bytes: Vec::new(alloc),
    };
    let refused = refusals(alloc, &mut out, &["ab", "cd"])?;
    Ok(refused == 0 && out.bytes.as_slice() == b"abcd".as_slice())
}

#[test]
fn memory_answers_as_told(rt: HostRuntime) -> Result<(), Fail> {
    assert!(rt; memory_is_right(rt.alloc())?);
    assert!(rt; sure_is_right(rt.alloc())?);
    assert!(rt; memory_is_put(rt.alloc())?);
    assert!(rt; sure_is_put(rt.alloc())?);
    Ok(())
}
