//! Words that are options: their form, and their values as clap reads them.
#![tactic(auto)]

mod laws;
mod numbers;
mod options;
mod parsed;

pub use laws::options_are_read;
pub use numbers::number_in;
pub use options::{are_of, value_of};
pub use parsed::{Values, read_options};
