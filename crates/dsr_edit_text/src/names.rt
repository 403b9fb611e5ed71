// Names, as a specification's text has them.
ghost use Rattle.std.specs.Prelude.{Decides};
ghost use Rattle.dsr_edit_text.specs.Scripts.{IsName};
ghost use Rattle.dsr_edit_text.specs.Lenient.{IsWord};

use dsr_lexer::{NAME_LIMIT, begins_word, find_keyword};

/// Whether the word is a name: it begins with a letter, isn't too long and is no keyword.
pub fn is_name(second: bool, word: &[u8]) -> bool
    requires word { IsWord word.now }
    ensures { Decides result (IsName second word.now) }
{
    if !begins_word(word) {
        return false;
    }
    if word.len() > NAME_LIMIT {
        return false;
    }
    match find_keyword(word, second) {
        Some(_) => false,
        None => true,
    }
}
