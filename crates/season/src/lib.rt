//! The lines of a season: what one line asks for, and the one text of each of the five calls.
//! It uses `lines` for the four calls that the runner has too, and `text` for the line of a citation.
//! A new call is a case of `Call`, with its text in `specs/Texts.antt`.

#![tactic(auto)]

pub mod call;
pub mod parse;
