//! Runs the scripts of plans that lie in the folder `data`, and tells which say other lines than are stored.
#![tactic(auto)]

mod plans;
mod schedules;
mod trees;

use saw_scripts::{Count, ScriptFault, scripts_of};
use std::process::ExitCode;
use std::sync::Wait;
use std::thread::Threads;

/// The kinds of calls, each with a folder of scripts.
const KINDS: [&str; 3] = ["plans", "schedules", "trees"];

/// The lines that a script says, by the kind of its calls.
fn said<T: Threads + Wait + Sync>(
    rt: &T,
    host: &HostRuntime,
    kind: &str,
    script: &str,
) -> anyhow::Result<Vec<u8>> {
    let alloc = host.alloc();
    match kind {
        "plans" => plans::lines(rt, alloc, script),
        "schedules" => schedules::lines(rt, alloc, script),
        "trees" => trees::lines(alloc, script),
        _ => Err(ScriptFault::NoForm.into()),
    }
}

/// Runs the scripts of a kind.
fn run_kind<T: Threads + Wait + Sync>(
    rt: &T,
    host: &HostRuntime,
    kind: &str,
    count: &mut Count,
) -> anyhow::Result<()> {
    for script in &scripts_of(host, kind)? {
        let said = said(rt, host, kind, script.calls.as_str())?;
        count.add(host, script, &said)?;
    }
    Ok(())
}

/// Runs all scripts; gives whether all passed.
fn run_all<T: Threads + Wait + Sync>(rt: &T, host: &HostRuntime) -> anyhow::Result<bool> {
    let mut count = Count::new();
    for kind in KINDS {
        run_kind(rt, host, kind, &mut count)?;
    }
    Ok(count.print(host)?)
}

fn main(rt: HostRuntime) -> anyhow::Result<ExitCode> {
    Ok(if run_all(&rt, &rt)? {
        ExitCode::from(0)
    } else {
        ExitCode::from(1)
    })
}
