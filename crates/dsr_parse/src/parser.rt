// From a text to its tree, or to the first place where it goes wrong.
ghost use Rattle.std.specs.Prelude.{◌≡◌, ◌<◌, ◌≤◌, ◌-◌, ◌⊎◌, length, slice_get, IfOk, IfErr, IsErrAnd, IsSomeAnd, MatchResult};
ghost use Rattle.dsr_tree.specs.Trees.{tree_shape};
ghost use Rattle.dsr_syntax_theory.specs.Parsing.{IsTreeOf};
ghost use Rattle.dsr_syntax_theory.specs.Sentences.{IsSpecText};
ghost use Rattle.dsr_parse.specs.Faults.{HasFault, StopsBy};
ghost use Rattle.dsr_parse.specs.declared.parser.SyntaxFault.{SyntaxFault};
ghost use Rattle.dsr_parse.specs.declared.parser.SyntaxFault.TheVariants as faults;
ghost use Rattle.dsr_lexer.specs.Lexing.{AreFrontTokens};

use crate::reader::{Reader, Stop};
use dsr_ir::NoMemory;
use dsr_lexer::front;
use dsr_tree::{Lexeme, Tree};
use std::alloc::Global;
use thiserror::Error;

/// Why a text has no tree. Places count bytes from 0.
#[derive(Debug, Drop, Error)]
pub enum SyntaxFault {
    /// The place of bytes that begin no token, of a name of more than 32 bytes, or of a number
    /// above 2^64 - 1.
    #[error("no token at byte {0}")]
    Token(u64),
    /// The place of the first token that continues no text of the grammar; the text's length
    /// where the text ends too early.
    #[error("unexpected token or end at byte {0}")]
    Expected(u64),
    /// The place of an operator, a parenthesis, a `not`, a `given` or the first token of an atom
    /// that goes over a limit of its expression or formula.
    #[error("a limit is passed at byte {0}")]
    Limit(u64),
    /// The allocator had no memory left.
    #[error("out of memory")]
    NoMemory,
}

impl From<NoMemory> for SyntaxFault {
    ghost use Rattle.dsr_parse.specs.declared.parser.SyntaxFault.TheVariants as faults;

    ghost from_gives = { λ _ e. e ≡ faults.NoMemory };

    fn from(_: NoMemory) -> Self {
        SyntaxFault::NoMemory
    }
}

// The place of the first of so many last tokens.
fn place_of(lexemes: &[Lexeme], left: usize) -> u64
    requires some { 0 < left }
    requires within { left ≤ length lexemes.now }
    ensures { IsSomeAnd (slice_get lexemes.now (length lexemes.now - left)) (λ found. result ≡ found.place) }
{
    lexemes[lexemes.len() - left].place
}

// The fault of a text, where its tokens up to the place of a token's fault, or up to the end,
// can't be read further.
fn fault_of(text: &[u8], lexemes: &[Lexeme], fault: Option<u64>, stop: Stop) -> SyntaxFault
    requires front { AreFrontTokens text.now lexemes.now fault }
    requires stops { StopsBy lexemes.now stop }
    ensures { (result ≡ faults.NoMemory) ⊎ HasFault text.now result }
{
    match stop {
        Stop::NoMemory => SyntaxFault::NoMemory,
        Stop::Expected(0) => match fault {
            Some(place) => SyntaxFault::Token(place),
            None => SyntaxFault::Expected(text.len() as u64),
        },
        Stop::Expected(left) => SyntaxFault::Expected(place_of(lexemes, left)),
        Stop::Limit(left) => SyntaxFault::Limit(place_of(lexemes, left)),
    }
}

/// The tree of a specification's text. The text is read with one token of look-ahead, and the
/// first token that can't continue any specification decides what is wrong with it.
pub fn parse(alloc: Global, text: &[u8]) -> Result<Tree, SyntaxFault>
    ensures tree { IfOk result (λ tree. IsTreeOf text.now (tree_shape tree)) }
    ensures fault { IfErr result (λ e. (e ≡ faults.NoMemory) ⊎ HasFault text.now e) }
    // Each text of the grammar within its limits is read, and each fault is told, unless memory
    // runs out.
    ensures read { IsSpecText text.now → MatchResult result (λ _. Unit {0}) (λ e. e ≡ faults.NoMemory) }
    ensures told { (fault : SyntaxFault) → HasFault text.now fault →
        IsErrAnd result (λ e. (e ≡ fault) ⊎ (e ≡ faults.NoMemory)) }
{
    let front = front(alloc, text)?;
    let mut reader = Reader::new(alloc, &front.lexemes);
    let tree = match reader.tree() {
        Ok(tree) => tree,
        Err(stop) => return Err(fault_of(text, &front.lexemes, front.fault, stop)),
    };
    if reader.left() > 0 {
        let stop = Stop::Expected(reader.left());
        return Err(fault_of(text, &front.lexemes, front.fault, stop));
    }
    match front.fault {
        Some(place) => Err(SyntaxFault::Token(place)),
        None => Ok(tree),
    }
}
