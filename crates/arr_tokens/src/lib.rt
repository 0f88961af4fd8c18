//! The tokens of a text: from its bytes to words, numbers and signs, each with the place of its first byte.
//!
//! **The promise.** [`Text::next`] cuts the next token from what is left of a text, so that turn by turn it gives the
//! tokens that the definition gives, the end last. [`place_behind`] is the place behind some bytes. Want of memory is
//! the only other answer of `next`.
//!
//! **The definition** is specs/Tokens.antt: `piece` is the longest token in front, or a blank or a comment; `tokens` has
//! those of a whole text.
#![tactic(auto)]

mod text;
mod token;

pub use text::{Text, place_behind};
pub use token::{Item, Keyword, Sign, Token, View};
