//! Runs the scripts of contexts and families that lie in the folder `data`, and tells which say other lines than are stored.
#![tactic(auto)]

mod access;
mod families;
mod requests;
mod rules;
mod settings;

use saw_scripts::{Count, ScriptFault, scripts_of};
use std::process::ExitCode;

/// The kinds of calls, each with a folder of scripts.
const KINDS: [&str; 4] = ["access", "families", "settings", "requests"];

/// The lines that a script says, by the kind of its calls.
fn said(host: &HostRuntime, kind: &str, script: &str) -> anyhow::Result<Vec<u8>> {
    let alloc = host.alloc();
    match kind {
        "access" => access::lines(alloc, script),
        "families" => families::lines(alloc, script),
        "settings" => settings::lines(alloc, script),
        "requests" => requests::lines(alloc, script),
        _ => Err(ScriptFault::NoForm.into()),
    }
}

/// Runs the scripts of a kind.
fn run_kind(host: &HostRuntime, kind: &str, count: &mut Count) -> anyhow::Result<()> {
    for script in &scripts_of(host, kind)? {
        let said = said(host, kind, script.calls.as_str())?;
        count.add(host, script, &said)?;
    }
    Ok(())
}

/// Runs all scripts; gives whether all passed.
fn run_all(host: &HostRuntime) -> anyhow::Result<bool> {
    let mut count = Count::new();
    for kind in KINDS {
        run_kind(host, kind, &mut count)?;
    }
    Ok(count.print(host)?)
}

fn main(rt: HostRuntime) -> anyhow::Result<ExitCode> {
    Ok(if run_all(&rt)? {
        ExitCode::from(0)
    } else {
        ExitCode::from(1)
    })
}
