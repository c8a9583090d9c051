//! The logic of the program `citation`: a season's bytes to the trails of its citations.
//! It uses `season` for its lines, `passages` for the register, and `directory` for the reports of its compressions.
//! Reading and writing are a program's: slots are lent to it, and nothing here reaches outside.

#![tactic(auto)]

pub mod calls;
pub mod directories;
pub mod line;
pub mod register;
pub mod seasons;
pub mod trail;

pub use directories::{COMPRESSIONS, ROOM, open_directories};
pub use lines::script::MOST_READ;
pub use register::open_register;
pub use seasons::run;
