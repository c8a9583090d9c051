//! What each call does to an arena's slots, what it does to the roll of its records, and the laws over every history.
//! It uses `kinds` and `outcome`: nothing here knows how an arena or a stack is made.
//! A new call is one more case of `Call` with its effect, its line of the roll and where it leaves a record.

#![tactic(auto)]
