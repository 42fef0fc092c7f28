//! What texts of the settings on families and on blocks list. A number of spaces stands before each text.

use saw_rules::{Family, Rule, families_of, rules_of};
use saw_scripts::{ScriptFault, bytes_of, put_hex, put_number, put_word};
use saw_wire::Text;
use std::alloc::{AllocError, Global};

/// What a text lists, by the kind of its setting.
pub(crate) fn put_listed(
    alloc: Global,
    kind: &str,
    spaces: &str,
    word: &str,
    out: &mut Vec<u8>,
) -> anyhow::Result<()> {
    let text = text_of(alloc, spaces, word)?;
    match kind {
        "families" => put_families(alloc, &text, out),
        "rules" => put_rules(alloc, &text, out),
        _ => Err(ScriptFault::NoForm.into()),
    }
}

fn text_of(alloc: Global, spaces: &str, word: &str) -> anyhow::Result<Text> {
    let mut text = vec![in alloc; b' '; spaces.parse::<usize>()?]?;
    text.extend_from_slice(bytes_of(alloc, word)?.as_slice())?;
    match str::from_utf8(&text) {
        Ok(text) => Ok(Text::from_str(alloc, text)?),
        Err(_) => Err(ScriptFault::NoForm.into()),
    }
}

fn put_families(alloc: Global, text: &Text, out: &mut Vec<u8>) -> anyhow::Result<()> {
    match families_of(alloc, text.as_str())? {
        Some(families) => Ok(put_names(alloc, families.as_slice(), out)?),
        None => Ok(put_word(out, b"none")?),
    }
}

fn put_names(alloc: Global, families: &[Family], out: &mut Vec<u8>) -> Result<(), AllocError> {
    for family in families {
        put_hex(alloc, out, family.name.as_str().as_bytes())?;
        put_hex(alloc, out, family.version.as_str().as_bytes())?;
    }
    Ok(())
}

fn put_rules(alloc: Global, text: &Text, out: &mut Vec<u8>) -> anyhow::Result<()> {
    match rules_of(alloc, text.as_str())? {
        Some(rules) => Ok(put_each(alloc, rules.as_slice(), out)?),
        None => Ok(put_word(out, b"none")?),
    }
}

fn put_each(alloc: Global, rules: &[Rule], out: &mut Vec<u8>) -> Result<(), AllocError> {
    put_word(out, rules.len().to_string(alloc)?.as_bytes())?;
    for rule in rules {
        put_rule(alloc, rule, out)?;
    }
    Ok(())
}

fn put_rule(alloc: Global, rule: &Rule, out: &mut Vec<u8>) -> Result<(), AllocError> {
    match rule {
        Rule::NofX { n, family } => {
            put_word(out, b"NofX")?;
            put_number(alloc, out, *n)?;
            put_hex(alloc, out, family.as_str().as_bytes())
        }
        Rule::XatY { family, position } => {
            put_word(out, b"XatY")?;
            put_hex(alloc, out, family.as_str().as_bytes())?;
            put_word(out, position.to_string(alloc)?.as_bytes())
        }
        Rule::Local { indices } => {
            put_word(out, b"local")?;
            put_indices(alloc, indices.as_slice(), out)
        }
    }
}

fn put_indices(alloc: Global, indices: &[u32], out: &mut Vec<u8>) -> Result<(), AllocError> {
    for index in indices {
        put_number(alloc, out, *index)?;
    }
    Ok(())
}
