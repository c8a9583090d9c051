//! Directories: arenas of pointers that hold the reports of compressions, and where they lead a pointer.
//! It uses `arena` and what that uses; an arena knows nothing of it, and it knows no stack.
//! `find` carries the whole promise; `compress_into` says which calls of a directory's history a filling is.

#![tactic(auto)]

pub mod error;
pub mod fill;
pub mod find;

pub use error::DirectoryError;
pub use fill::compress_into;
