//! What is written of a laid record: the listing, the details of its entries, and the reasons of one. Leans on
//! `record`.
#![tactic(auto)]

pub mod details;
pub mod reasons;
pub mod writer;
