//! The folded listing: the table of its entries, made of laid rows, and the bytes of an entry, put into the caller's
//! buffer. Leans on `layout`.
#![tactic(auto)]

pub mod entries;
pub mod listing;
pub mod table;
