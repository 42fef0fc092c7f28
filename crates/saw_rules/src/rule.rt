//! The setting of block validation rules.

ghost use Rattle.std.specs.Prelude.{◌≡◌, ◌==◌, map, option_map, pos, IfOk};
ghost use Rattle.std.specs.List.{after_first, before_first};
ghost use Rattle.saw_settings.specs.Values.{number_in, trimmed};
ghost use Rattle.saw_rules.specs.RuleTexts.{arguments_in, each_of, family_name, local, n_of_x, parts_in, position_in, rule_by, rule_in, rules_of, two_in, x_at_y};

use saw_settings::number_in;
use saw_wire::{Items, Text};
use std::alloc::{AllocError, Global};

/// What a block has to keep to. Transactions are numbered from 0 through its batches.
#[derive(Drop)]
pub enum Rule {
    /// At most `n` transactions are of this family.
    NofX { n: u32, family: Text },
    /// The transaction at this position is of this family. A negative position counts from the end: -1 is the last.
    XatY { family: Text, position: i32 },
    /// The transactions at these indices are signed by the block's signer.
    Local { indices: Items<u32> },
}

/// The rules that a text lists between semicolons: `NofX:n,family`, `XatY:family,position` and `local:index,..`. Spaces
/// (byte 32) round names and arguments count nothing, and neither do empty parts. A family is not empty; a number is 1
/// to 9 decimal digits, and a position may have one `-` before them. `None`: some part is none of these.
#[tactic(auto, unfolding(crate::specs::RuleTexts::rules_of))]
pub fn rules_of(alloc: Global, text: &str) -> Result<Option<Items<Rule>>, AllocError>
    ensures { IfOk result (λ rules. rules ≡ rules_of text.now) }
{
    let parts = parts_in(alloc, text)?;
    let mut rules = Items::new(alloc);
    for part in &parts {
        match rule_in(alloc, part)? {
            Some(rule) => rules.push(rule)?,
            None => return Ok(None),
        }
    }
    Ok(Some(rules))
}

// ---- parts

/// A text without the spaces at both ends.
fn trimmed(text: &str) -> &str
    ensures { result.now ≡ trimmed text.now }
{
    text.trim_start_matches(' ').trim_end_matches(' ')
}

/// The parts between semicolons, trimmed, of which empty ones are none.
fn parts_in(alloc: Global, text: &str) -> Result<Vec<&str>, AllocError>
    ensures { IfOk result (λ parts. map (λ part. part.now) parts.items ≡ parts_in text.now) }
{
    text.split(';')
        .map(|part| trimmed(part))
        .filter(|part| !part.is_empty())
        .collect(alloc)
}

/// The parts between commas, trimmed.
fn arguments_in(alloc: Global, text: &str) -> Result<Vec<&str>, AllocError>
    ensures { IfOk result (λ parts. map (λ part. part.now) parts.items ≡ arguments_in text.now) }
{
    text.split(',').map(|part| trimmed(part)).collect(alloc)
}

/// What stands before the first colon, and what stands behind it.
fn cut(part: &str) -> (&str, &str)
    ensures name { result.0.now ≡ before_first (λ b. b == 58) part.now }
    ensures arguments { result.1.now ≡ after_first (λ b. b == 58) part.now }
{
    match part.split_once(':') {
        Some((name, arguments)) => (name, arguments),
        None => (part, ""),
    }
}

// ---- arguments

fn family_name(alloc: Global, text: &str) -> Result<Option<Text>, AllocError>
    ensures { IfOk result (λ name. name ≡ family_name text.now) }
{
    if text.is_empty() {
        return Ok(None);
    }
    Ok(Some(Text::from_str(alloc, text)?))
}

/// A number of 1 to 9 digits, which has room for a sign.
fn signed_in(text: &str) -> Option<i32>
    ensures { result ≡ option_map pos (number_in text.now) }
{
    match number_in(text) {
        Some(n) => i32::try_from(n).ok(),
        None => None,
    }
}

fn position_in(text: &str) -> Option<i32>
    ensures { result ≡ position_in text.now }
{
    match text.strip_prefix('-') {
        Some(rest) => match signed_in(rest) {
            Some(n) => Some(-n),
            None => None,
        },
        None => signed_in(text),
    }
}

fn numbers_in(alloc: Global, texts: &[&str]) -> Result<Option<Items<u32>>, AllocError>
    ensures { IfOk result (λ numbers. numbers ≡ each_of number_in (map (λ text. text.now) texts.now)) }
{
    let mut numbers = Items::new(alloc);
    for text in texts {
        match number_in(text) {
            Some(number) => numbers.push(number)?,
            None => return Ok(None),
        }
    }
    Ok(Some(numbers))
}

fn two_in<'a>(arguments: &[&'a str]) -> Option<(&'a str, &'a str)>
    ensures { option_map (λ two. (two.0.now, two.1.now)) result ≡ two_in (map (λ part. part.now) arguments.now) }
{
    match arguments {
        [first, second] => Some((*first, *second)),
        _ => None,
    }
}

// ---- rules

fn n_of_x(alloc: Global, arguments: &[&str]) -> Result<Option<Rule>, AllocError>
    ensures { IfOk result (λ rule. rule ≡ n_of_x (map (λ part. part.now) arguments.now)) }
{
    let Some((n, family)) = two_in(arguments) else {
        return Ok(None);
    };
    let Some(n) = number_in(n) else {
        return Ok(None);
    };
    match family_name(alloc, family)? {
        Some(family) => Ok(Some(Rule::NofX { n, family })),
        None => Ok(None),
    }
}

fn x_at_y(alloc: Global, arguments: &[&str]) -> Result<Option<Rule>, AllocError>
    ensures { IfOk result (λ rule. rule ≡ x_at_y (map (λ part. part.now) arguments.now)) }
{
    let Some((family, position)) = two_in(arguments) else {
        return Ok(None);
    };
    let Some(position) = position_in(position) else {
        return Ok(None);
    };
    match family_name(alloc, family)? {
        Some(family) => Ok(Some(Rule::XatY { family, position })),
        None => Ok(None),
    }
}

fn local(alloc: Global, arguments: &[&str]) -> Result<Option<Rule>, AllocError>
    ensures { IfOk result (λ rule. rule ≡ local (map (λ part. part.now) arguments.now)) }
{
    match numbers_in(alloc, arguments)? {
        Some(indices) => Ok(Some(Rule::Local { indices })),
        None => Ok(None),
    }
}

fn rule_by(alloc: Global, name: &str, arguments: &[&str]) -> Result<Option<Rule>, AllocError>
    ensures { IfOk result (λ rule. rule ≡ rule_by name.now (map (λ part. part.now) arguments.now)) }
{
    if name == "NofX" {
        n_of_x(alloc, arguments)
    } else if name == "XatY" {
        x_at_y(alloc, arguments)
    } else if name == "local" {
        local(alloc, arguments)
    } else {
        Ok(None)
    }
}

fn rule_in(alloc: Global, part: &str) -> Result<Option<Rule>, AllocError>
    ensures { IfOk result (λ rule. rule ≡ rule_in part.now) }
{
    let (name, listed) = cut(part);
    let arguments = arguments_in(alloc, listed)?;
    rule_by(alloc, trimmed(name), &arguments)
}
