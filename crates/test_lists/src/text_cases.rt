//! The cases of lists that ask of a text by itself: of a picture, and how a copybook is read into rows.

/// Answers to pictures.
pub mod pictures;
/// Readings of copybook texts.
pub mod readings;
