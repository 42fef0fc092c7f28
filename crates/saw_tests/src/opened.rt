//! What words ask to open before a run.

use saw_top::{Wish, listen_wish};
use std::alloc::{AllocError, Global};

/// Words, with a space between them, and what they ask to open.
const OPENED: [(&str, Wish); 21] = [
    (
        "apply --live 7000 --readers 2",
        Wish::Live {
            port: 7000,
            readers: 2,
        },
    ),
    (
        "apply --readers=64 --workers 3 --live=65535 --attest list",
        Wish::Live {
            port: 65_535,
            readers: 64,
        },
    ),
    ("apply --live 0 --readers 2", Wish::Plain),
    ("apply --live 65536 --readers 2", Wish::Plain),
    ("apply --live 7000 --readers 0", Wish::Plain),
    ("apply --live 7000 --readers 65", Wish::Plain),
    ("apply --live 7000", Wish::Plain),
    ("apply --readers 2", Wish::Plain),
    ("apply --live=7000 --readers=", Wish::Plain),
    ("apply --live 7000 --readers 2 --readers 2", Wish::Plain),
    ("apply --live 7000 --readers 2 --workers 0", Wish::Plain),
    (
        "apply --live 7000 --readers 2 --listen 5000 --remotes 1",
        Wish::Plain,
    ),
    ("apply --live 7000 --readers 2 --prefix 1c", Wish::Plain),
    ("state --live 7000 --readers 2", Wish::Plain),
    ("tp --live 7000 --readers 2", Wish::Plain),
    ("--live 7000 --readers 2", Wish::Plain),
    ("apply", Wish::Plain),
    (
        "apply --listen 5000 --remotes 1",
        Wish::Listen {
            port: 5000,
            remotes: 1,
        },
    ),
    ("apply --listen 5000 --remotes 65", Wish::Plain),
    ("tp --connect 4004", Wish::Connect { port: 4004 }),
    ("tp --connect 0", Wish::Plain),
];

fn words_in(alloc: Global, line: &str) -> Result<Vec<String>, AllocError> {
    let mut words = Vec::new(alloc);
    for word in line.split(' ') {
        words.push(String::from_str(alloc, word)?)?;
    }
    Ok(words)
}

// How many lines ask to open what stands beside them.
fn count_opened(alloc: Global) -> Result<u32, AllocError> {
    let mut count: u32 = 0;
    for (line, wish) in OPENED {
        if listen_wish(&words_in(alloc, line)?) == wish {
            count = count.saturating_add(1);
        }
    }
    Ok(count)
}

#[test]
fn words_open_what_they_name(rt: HostRuntime) -> Result<(), AllocError> {
    let count = count_opened(rt.alloc())?;
    assert!(rt; count == 21);
    Ok(())
}
