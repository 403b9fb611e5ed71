// What a command does next.
ghost use Rattle.std.specs.Prelude.{◌≡◌, ◌≤◌, ℕ, List, IfOk, map, string_bytes};

use crate::Verdict;
use std::alloc::{AllocError, Global};

/// What a command says, and the text that goes with it.
#[derive(Drop)]
pub struct Told {
    pub verdict: Verdict,
    /// All that the command puts, its line feeds included.
    pub text: Vec<u8>,
}

/// What a command does next.
#[derive(Drop)]
pub enum Move<'a, S> {
    /// Loads a file whole, and goes on with its bytes.
    Load {
        name: &'a str,
        /// The most bytes that the file may have.
        limit: u32,
        /// The text where it has more. The run then ends as `TooLong`.
        long: &'a [u8],
        /// What goes on with the bytes.
        stage: S,
    },
    /// Saves a file, and then tells.
    Save {
        name: &'a str,
        bytes: Vec<u8>,
        /// What is told once the file is saved.
        told: Told,
    },
    /// Tells, and changes no file.
    Tell(Told),
}

/// A command that waits for the bytes of a file.
///
/// An implementor says by `due` what the command means, and its `go_on` is proved to do no more and
/// no less. Only want of memory is an `Err`.
pub trait Stage<'a>: Sized {
    ghost use Rattle.dsr_script.specs.Moves.{Follows, IsReady, loads_of};
    ghost use Rattle.dsr_script.specs.Scripts.{Came, Next};

    /// The script of what follows, once these bytes came.
    ghost due: { Self → List ℕ → List Came → Next → Type 0 };

    /// The most files that may still be loaded behind the one that it waits for.
    ghost left: { Self → ℕ };

    /// What holds of a stage and of the bytes that it goes on with.
    ghost ready: { Self → List ℕ → Type 0 };

    /// The next move, by the bytes of the file that it waits for.
    fn go_on(self, alloc: Global, bytes: Vec<u8>) -> Result<Move<'a, Self>, AllocError>
        requires { ready self bytes.items }
        ensures ready { IfOk result (λ move. IsReady ready move) }
        ensures follows { IfOk result (λ move. Follows due (due self bytes.items) move) }
        ensures fewer { IfOk result (λ move. loads_of left move ≤ left self) };
}

/// All commands of a program, by the words of the command line.
pub trait Commands<'a>: Stage<'a> {
    ghost use Rattle.dsr_script.specs.Moves.{Follows, IsReady};
    ghost use Rattle.dsr_script.specs.Scripts.{Came, Next};

    /// The script of what the words ask for, also where they are no command.
    ghost asked: { List (List ℕ) → List Came → Next → Type 0 };

    /// The first move, by the words of the command line without the program's name.
    fn begin(alloc: Global, words: &'a [String]) -> Result<Move<'a, Self>, AllocError>
        ensures ready { IfOk result (λ move. IsReady Self.ready move) }
        ensures follows { IfOk result (λ move. Follows Self.due (asked (map string_bytes words.now)) move) };
}
