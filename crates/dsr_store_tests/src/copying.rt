// A command that copies a file, over shelves and outputs in memory whose calls fail in turn.
ghost use Rattle.std.specs.Prelude.{◌≡◌, IfOk};
ghost use Rattle.dsr_script.specs.Moves.{shown};

use crate::memory::one_file;
use dsr_script::{Commands, Move, Stage, Status, Told, Verdict, run};
use dsr_store::{Held, MemorySink, TornShelf};
use std::alloc::{AllocError, Global};
use std::test::Fail;

// A copy that waits for the bytes, with the name under which they are saved.
#[derive(Drop)]
struct Copying<'a> {
    to: &'a str,
}

fn tell(alloc: Global, verdict: Verdict, text: &[u8]) -> Result<Told, AllocError>
    ensures { IfOk result (λ told. shown told ≡ record { verdict = verdict; text = text.now }) }
{
    let text = Vec::from_slice(alloc, text)?;
    Ok(Told { verdict, text })
}

impl<'a> Stage<'a> for Copying<'a> {
    ghost use Rattle.std.specs.Prelude.{◌≡◌, codes, ⊤};
    ghost use Rattle.dsr_script.specs.Scripts.{saves};
    ghost use Rattle.dsr_script.specs.declared.status.Verdict.TheVariants as verdicts;

    ghost due = { λ copying bytes. saves copying.to.now (λ saved answer.
        (saved ≡ bytes) × (answer ≡ record { verdict = verdicts.Ok; text = codes "copied\n" })) };

    ghost left = { λ _. 0 };

    ghost ready = { λ _ _. ⊤ };

    fn go_on(self, alloc: Global, bytes: Vec<u8>) -> Result<Move<'a, Self>, AllocError> {
        Ok(Move::Save {
            name: self.to,
            bytes,
            told: tell(alloc, Verdict::Ok, b"copied\n")?,
        })
    }
}

impl<'a> Commands<'a> for Copying<'a> {
    ghost use Rattle.std.specs.Prelude.{◌≡◌, codes, length, nat_eq, []};
    ghost use Rattle.std.specs.List.{slice_index_or};
    ghost use Rattle.dsr_script.specs.Scripts.{chooses, loads, saves, tells};
    ghost use Rattle.dsr_script.specs.declared.status.Verdict.TheVariants as verdicts;

    ghost asked = { λ words. chooses (nat_eq (length words) 2)
        (loads (slice_index_or words 0 []) 4 (codes "too long\n") (λ bytes.
        saves (slice_index_or words 1 []) (λ saved answer.
        (saved ≡ bytes) × (answer ≡ record { verdict = verdicts.Ok; text = codes "copied\n" }))))
        (tells (λ answer. answer ≡ record { verdict = verdicts.Usage; text = codes "usage\n" })) };

    fn begin(alloc: Global, words: &'a [String]) -> Result<Move<'a, Self>, AllocError> {
        if words.len() == 2 {
            return Ok(Move::Load {
                name: words[0].as_str(),
                limit: 4,
                long: b"too long\n",
                stage: Copying {
                    to: words[1].as_str(),
                },
            });
        }
        Ok(Move::Tell(tell(alloc, Verdict::Usage, b"usage\n")?))
    }
}

// Words over a file under `a`, and what comes of it.
#[derive(Clone, Copy)]
struct Case<'a> {
    words: &'a [&'a str],
    file: &'a str,
    // The call of the shelf and the put that are made to fail; 0 for none.
    failing: (u64, u64),
    status: Status,
    text: &'a str,
    // What is held under `b` afterwards, if anything.
    copy: Option<&'a [u8]>,
    // How often the shelf is called.
    calls: u64,
}

const OK: Status = Status::Said(Verdict::Ok);

const USAGE: Status = Status::Said(Verdict::Usage);

const COPIED: &str = "copied\n";

const LOST: &str = "store failed\n";

// A file within the limit is copied, where a call or a put fails.
fn copy<'a>(
    failing: (u64, u64),
    status: Status,
    text: &'a str,
    copy: Option<&'a [u8]>,
    calls: u64,
) -> Case<'a> {
    Case {
        words: &["a", "b"],
        file: "four",
        failing,
        status,
        text,
        copy,
        calls,
    }
}

// No call fails, and no copy is made.
fn uncopied<'a>(
    words: &'a [&'a str],
    file: &'a str,
    status: Status,
    text: &'a str,
    calls: u64,
) -> Case<'a> {
    Case {
        words,
        file,
        failing: (0, 0),
        status,
        text,
        copy: None,
        calls,
    }
}

fn words_of(alloc: Global, words: &[&str]) -> Result<Vec<String>, AllocError> {
    let mut all = Vec::new(alloc);
    for word in words {
        all.push(word.to_string(alloc)?)?;
    }
    Ok(all)
}

fn shelf_of(alloc: Global, case: &Case<'_>) -> Result<TornShelf, AllocError> {
    let fail = vec![in alloc; case.failing.0]?;
    Ok(TornShelf {
        files: one_file(alloc, case.file.as_bytes())?,
        fail,
        cut: 0,
        calls: 0,
        last: None,
    })
}

// The bytes that are held under the name, if any.
fn held_under<'a>(files: &'a [Held], name: &str) -> Option<&'a [u8]> {
    for file in files {
        if file.name.bytes() == name.as_bytes() {
            return Some(file.bytes.bytes());
        }
    }
    None
}

fn ends_so(alloc: Global, case: &Case<'_>) -> Result<bool, AllocError> {
    let words = words_of(alloc, case.words)?;
    let mut shelf = shelf_of(alloc, case)?;
    let mut out = MemorySink {
        bytes: Vec::new(alloc),
        fail: vec![in alloc; case.failing.1]?,
        calls: 0,
    };
    let status = run::<Copying, TornShelf, MemorySink>(alloc, &words, &mut shelf, &mut out);
    if status == Status::NoMemory && out.bytes.is_empty() {
        return Err(AllocError);
    }
    Ok(
        status == case.status
            && out.bytes.as_slice() == case.text.as_bytes()
            && held_under(&shelf.files, "b") == case.copy
            && shelf.calls == case.calls,
    )
}

// The place of the first case that ends in another way.
fn first_wrong(alloc: Global, cases: &[Case<'_>]) -> Result<Option<usize>, AllocError> {
    for (place, case) in cases.iter().enumerate() {
        if !ends_so(alloc, case)? {
            return Ok(Some(place));
        }
    }
    Ok(None)
}

#[test]
fn each_call_fails_in_turn(rt: HostRuntime) -> Result<(), Fail> {
    let cases = [
        copy((0, 0), OK, COPIED, Some(b"four"), 2),
        copy((1, 0), Status::StoreFailed, LOST, None, 1),
        copy((2, 0), Status::StoreFailed, LOST, Some(b""), 2),
        copy((0, 1), Status::OutputFailed, "", Some(b"four"), 2),
        // That the store failed can't be told.
        copy((2, 1), Status::OutputFailed, "", Some(b""), 2),
        uncopied(&[], "four", USAGE, "usage\n", 0),
        uncopied(&["a"], "four", USAGE, "usage\n", 0),
        uncopied(&["a", "b"], "fives", Status::TooLong, "too long\n", 1),
        uncopied(&["x", "b"], "four", Status::StoreFailed, LOST, 1),
    ];
    assert_eq!(rt; first_wrong(rt.alloc(), &cases)?, None);
    Ok(())
}
