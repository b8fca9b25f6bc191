//! The tokens of a configuration text, and how a word is printed so that it is read again as itself.
//!
//! Guarantees: a text is made of lexemes in at most one way; it has its tokens, each with its place, or
//! its leftmost fault; a printed word of printing bytes is one token of that word.
//! Leaves to others: which tokens make statements, lines or commands.
#![tactic(auto)]

mod bytes;
mod fault;
mod front;
mod kind;
mod laws;
mod lexer;
mod mark;
mod printing;
mod token;
mod word;

pub use fault::LexFault;
pub use laws::{
    printed_words_are_read_back, texts_are_read_in_one_way, words_of_tokens_are_of_lexemes,
};
pub use lexer::{cut_text, tokens};
pub use mark::Mark;
pub use printing::{is_plain, printed_len, push_word};
pub use token::{Cut, Token, TokenKind, Tokens};
