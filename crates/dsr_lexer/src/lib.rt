//! The text of a specification, cut into its tokens, and how tokens are spelled.
#![tactic(auto)]

mod bytes;
mod lexer;
mod spellings;
mod words;

pub use bytes::word_len;
pub use lexer::{TextFront, TokenFault, front, tokens};
pub use spellings::{find_keyword, keyword_bytes, sign_bytes};
pub use words::{NAME_LIMIT, begins_word};
