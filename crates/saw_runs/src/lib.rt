//! The state's tree kept as runs, forks and leaves.
#![tactic(auto)]

mod beside;
mod changing;
mod differing;
mod effective;
mod hashing;
mod kids;
mod listing;
mod lowers;
mod paths;
mod pieces;
mod reading;
mod roots;
mod run;
mod sharing;
mod tables;
mod testing;
mod ways;

pub use differing::difference;
pub use listing::{Listed, list_below};
pub use paths::path_below;
pub use pieces::{NewPiece, Piece};
pub use reading::value_below;
pub use roots::changed_root;
pub use run::{Run, hash_up};
pub use tables::{Found, Tables};
pub use testing::test_all;
