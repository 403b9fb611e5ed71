// The words with which the program was called.
ghost use Rattle.std.specs.IoError.{error_kind};
ghost use Rattle.std.specs.Prelude.{◌≡◌, ◌≢◌, [], drop, IfOk, IfErr, IsErr, IsOkAnd};
ghost use Rattle.std.specs.Vec.Iter.{into_iter_items};

use std::alloc::{AllocError, Global};
use std::env::Args;
use std::io::{self, ErrorKind};

// The words behind the first, which is the program's name.
fn behind_name(alloc: Global, mut given: Args) -> Result<Vec<String>, AllocError>
    ensures { IfOk result (λ words. words.items ≡ drop 1 (into_iter_items given)) }
{
    let mut words = Vec::new(alloc);
    let _name = given.next();
    while let Some(word) = given.next() {
        words.push(word)?;
    }
    Ok(words)
}

/// The program's words. They are none where the system refuses them, as where one isn't text.
pub fn words_of(alloc: Global, given: io::Result<Args>) -> Result<Vec<String>, AllocError>
    ensures given { IfOk given (λ all. IfOk result (λ words. words.items ≡ drop 1 (into_iter_items all))) }
    ensures refused { IfErr given
        (λ e. error_kind e ≢ ErrorKind.OutOfMemory → IsOkAnd result (λ words. words.items ≡ [])) }
    ensures no_memory { IfErr given (λ e. error_kind e ≡ ErrorKind.OutOfMemory → IsErr result) }
{
    match given {
        Ok(all) => behind_name(alloc, all),
        Err(e) if e.kind() == ErrorKind::OutOfMemory => Err(AllocError),
        Err(_) => Ok(Vec::new(alloc)),
    }
}
