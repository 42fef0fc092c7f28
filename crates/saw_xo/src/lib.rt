//! The XO family, version 1.0: games of tic-tac-toe, kept as text.
#![tactic(auto)]

mod action;
mod game;
mod games;
mod laws;
mod moves;
mod parts;
mod payload;

pub use action::{NAME, VERSION, address_of, reasons_are_own, replies_decide, step};
pub use laws::kept_is_read;
