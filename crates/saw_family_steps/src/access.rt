//! A context, request by request: a line of the base's entries, one of the declared inputs and outputs, and requests.

use saw_context::{AccessFault, Changes, Context, Layers, View};
use saw_messages::{Event, PlainBase, Tx, encode_receipt};
use saw_receipts::receipt_of;
use saw_scripts::{
    NO_WORDS, ScriptFault, Words, base_of, entries_of, places_of, put_hex, put_number, tx_of,
    words_of,
};
use saw_wire::{Bytes, Items, Text};
use std::alloc::{AllocError, Global};
use std::str::Lines;
use std::sync::Arc;

pub(crate) fn lines(alloc: Global, script: &str) -> anyhow::Result<Vec<u8>> {
    let mut lines = script.lines();
    let words = words_of(alloc, lines.next().ok_or(ScriptFault::NoForm)?)?;
    let base = base_of(alloc, &words)?;
    let tx = declaring(alloc, lines.next().ok_or(ScriptFault::NoForm)?)?;
    conversation(alloc, &tx, &base, lines)
}

/// The transaction of a line `tx INPUTS OUTPUTS`.
fn declaring(alloc: Global, line: &str) -> Result<Tx, ScriptFault> {
    match words_of(alloc, line)?.as_slice() {
        ["tx", inputs, outputs] => tx_of(
            alloc,
            Words {
                inputs,
                outputs,
                ..NO_WORDS
            },
        ),
        _ => Err(ScriptFault::NoForm),
    }
}

/// The lines of the requests, and the receipt of what was done.
fn conversation(
    alloc: Global,
    tx: &Tx,
    base: &PlainBase,
    lines: Lines<'_>,
) -> anyhow::Result<Vec<u8>> {
    let view = Arc::new(
        alloc,
        View {
            layers: Layers::new(alloc),
            inputs: Vec::new(alloc),
        },
    )?;
    let mut context = Context::new(alloc, tx, view, base)?;
    let mut out = Vec::new(alloc);
    for line in lines {
        ask(alloc, &mut context, &words_of(alloc, line)?, &mut out)?;
    }
    put_receipt(alloc, &mut out, &context.finish()?)?;
    Ok(out)
}

fn ask(
    alloc: Global,
    context: &mut Context<'_, PlainBase>,
    words: &[&str],
    out: &mut Vec<u8>,
) -> anyhow::Result<()> {
    match words {
        ["get", words @ ..] => get(alloc, context, words, out),
        ["set", words @ ..] => set(alloc, context, words, out),
        ["delete", words @ ..] => delete(alloc, context, words, out),
        ["event", name] => add_event(alloc, context, name, out),
        _ => Err(ScriptFault::NoForm.into()),
    }
}

fn get(
    alloc: Global,
    context: &mut Context<'_, PlainBase>,
    words: &[&str],
    out: &mut Vec<u8>,
) -> anyhow::Result<()> {
    let places = places_of(alloc, words)?;
    put_values(alloc, out, context.get(places.as_slice()))?;
    Ok(())
}

fn set(
    alloc: Global,
    context: &mut Context<'_, PlainBase>,
    words: &[&str],
    out: &mut Vec<u8>,
) -> anyhow::Result<()> {
    let entries = entries_of(alloc, words)?;
    put_done(alloc, out, context.set(entries.as_slice()))?;
    Ok(())
}

fn delete(
    alloc: Global,
    context: &mut Context<'_, PlainBase>,
    words: &[&str],
    out: &mut Vec<u8>,
) -> anyhow::Result<()> {
    let places = places_of(alloc, words)?;
    put_done(alloc, out, context.delete(places.as_slice()))?;
    Ok(())
}

fn add_event(
    alloc: Global,
    context: &mut Context<'_, PlainBase>,
    name: &str,
    out: &mut Vec<u8>,
) -> anyhow::Result<()> {
    let event_type = Text::from_str(alloc, name)?;
    context.add_event(Event {
        event_type,
        attributes: Items::new(alloc),
        body: Bytes::new(alloc),
    })?;
    out.extend_from_slice(b"done\n")?;
    Ok(())
}

fn put_values(
    alloc: Global,
    out: &mut Vec<u8>,
    answer: Result<Vec<Bytes>, AccessFault>,
) -> Result<(), AllocError> {
    match answer {
        Ok(values) => put_all(alloc, out, &values),
        Err(fault) => put_fault(alloc, out, fault),
    }
}

fn put_all(alloc: Global, out: &mut Vec<u8>, values: &[Bytes]) -> Result<(), AllocError> {
    out.extend_from_slice(b"values")?;
    for value in values {
        put_hex(alloc, out, value.as_slice())?;
    }
    out.push(b'\n')?;
    Ok(())
}

fn put_done(
    alloc: Global,
    out: &mut Vec<u8>,
    answer: Result<(), AccessFault>,
) -> Result<(), AllocError> {
    match answer {
        Ok(()) => out.extend_from_slice(b"done\n"),
        Err(fault) => put_fault(alloc, out, fault),
    }
}

fn put_fault(alloc: Global, out: &mut Vec<u8>, fault: AccessFault) -> Result<(), AllocError> {
    match fault {
        AccessFault::Unauthorized { index } => {
            out.extend_from_slice(b"refused at")?;
            put_number(alloc, out, index)?;
            out.push(b'\n')?;
            Ok(())
        }
        AccessFault::OutOfMemory => out.extend_from_slice(b"no memory\n"),
    }
}

/// The receipt, under the id `id`.
fn put_receipt(alloc: Global, out: &mut Vec<u8>, done: &Changes) -> Result<(), AllocError> {
    let id = Text::from_str(alloc, "id")?;
    let receipt = receipt_of(alloc, &id, done.changes.as_slice(), done.events.as_slice())?;
    out.extend_from_slice(b"receipt")?;
    put_hex(alloc, out, &encode_receipt(alloc, &receipt)?)?;
    out.push(b'\n')?;
    Ok(())
}
