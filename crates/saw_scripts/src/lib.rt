//! Scripts of calls with the lines that they are to say: what the programs share that run them.
#![tactic(auto)]

mod fault;
mod reason;
mod script;
mod tx;
mod words;

pub use fault::ScriptFault;
pub use reason::put_reason;
pub use script::{Count, Script, scripts_of};
pub use tx::{NO_WORDS, Words, tx_of};
pub use words::{
    base_of, bytes_of, change_of, entries_of, places_of, put_hex, put_number, put_word, texts_of,
    words_of,
};
