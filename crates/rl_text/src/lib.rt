//! Names and tokens, as the files of racelog write them.
//!
//! `NoMemory` is reported where memory ran out.
#![tactic(auto)]

mod bad;
mod bytes;
mod cursor;
mod cut;
mod first;
mod front;
mod laws;
mod left;
mod lexer;
mod name;
mod name_map;
mod number;
mod place;
mod print;
mod race;
mod scan;
mod token;
mod verilog;
mod words;

pub use bad::bad_place;
pub use bytes::{is_digit, is_letter, is_name_byte};
pub use cursor::{LineWords, Lines};
pub use cut::{lexemes, line_at};
pub use first::first_word;
pub use laws::{
    a_first_word_or_none, bad_where_no_tokens, decimals_are_numbers, front_is_longest,
    one_bad_place, one_first_word, one_list_of_tokens, tokens_or_bad_place,
    written_texts_have_words,
};
pub use left::WordsLeft;
pub use lexer::lex;
pub use name::{Name, are_name_bytes, copy_names, is_name, numbered_name};
pub use name_map::NameMap;
pub use number::capped_number;
pub use print::{put, put_number};
pub use scan::first_bad;
pub use token::{Kind, LexError, Style, Token};
pub use words::{Lexeme, Word};
