//! The scripts of a kind, and how many of them say what they are to say.

use std::{fs, io};

/// The calls of a script, and the lines that they are to say.
pub struct Script {
    pub name: String,
    pub calls: String,
    pub wanted: Vec<u8>,
}

// One step of a proof wherever one ends.
impl Drop for Script {
    fn drop(self) {
        let Script {
            name: _name,
            calls: _calls,
            wanted: _wanted,
        } = self;
    }
}

fn script_of(host: &HostRuntime, kind: &str, name: &str) -> io::Result<Script> {
    let alloc = host.alloc();
    let calls = fs::read_to_string(host, format!(in alloc; "{kind}/{name}.script")?.as_str())?;
    let wanted = fs::read(host, format!(in alloc; "{kind}/{name}.want")?.as_str())?;
    let name = String::from_str(alloc, name)?;
    Ok(Script {
        name,
        calls,
        wanted,
    })
}

/// The scripts of a kind: those in the folder of this name.
pub fn scripts_of(host: &HostRuntime, kind: &str) -> io::Result<Vec<Script>> {
    let mut scripts = Vec::new(host.alloc());
    for entry in fs::read_dir(host, kind)? {
        let entry = entry?;
        if let Some(name) = entry.file_name().strip_suffix(".script") {
            scripts.push(script_of(host, kind, name)?)?;
        }
    }
    Ok(scripts)
}

/// How many scripts passed, and how many did not.
#[derive(Clone, Copy)]
pub struct Count {
    passed: u64,
    failed: u64,
}

impl Count {
    /// No scripts so far.
    pub fn new() -> Self {
        Count {
            passed: 0,
            failed: 0,
        }
    }

    /// One more script, which is told where it says other lines than are stored.
    pub fn add(&mut self, host: &HostRuntime, script: &Script, said: &[u8]) -> io::Result<()> {
        if said == script.wanted.as_slice() {
            self.passed = self.passed.saturating_add(1);
            return Ok(());
        }
        self.failed = self.failed.saturating_add(1);
        println!(host; "{} says", script.name)?;
        println!(host; "{}", String::from_utf8_lossy(host.alloc(), said)?)
    }

    /// Prints the numbers; gives whether all scripts passed.
    pub fn print(self, host: &HostRuntime) -> io::Result<bool> {
        let Count { passed, failed } = self;
        println!(host; "{passed} passed, {failed} failed")?;
        Ok(failed == 0)
    }
}
