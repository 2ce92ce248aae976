//! Lists of cases, for the program that replays answers, and the memory that a call is lent there. A list has the
//! lexical form of a copybook: a case is the words up to a period that ends a statement, and a line that begins with `*`
//! is a comment. In the lists of that program no literal opens. An input is one word, in which %XX stands for a byte;
//! the word % is the empty input. An expected answer is a word for each of its numbers. A case is read word by word, and
//! the reading goes on from one word to the next as long as each is the expected one.
#![tactic(auto)]

/// A list in which no literal opens, and its cases, read word by word.
pub mod bare;
/// A list and its cases, read word by word, with a copybook's literals.
pub mod case;
/// The cases of a list, one after the other.
pub mod cases;
mod input;
/// What a case lends a call, and the memory that it is lent.
pub mod lent;
/// Lists in their files.
pub mod lists;
/// How many cases agree.
pub mod tally;
#[cfg(test)]
mod tests;
