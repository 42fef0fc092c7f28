//! Numbers with the prefixes that they read and write, added one after another to a predecessor tree.

ghost use Rattle.std.specs.Prelude.{◌≤◌, ◌+◌};

use saw_address::Prefix;
use saw_predtree::PredecessorTree;
use saw_scripts::{ScriptFault, put_number, texts_of, words_of};
use saw_wire::Text;
use std::alloc::{AllocError, Global};

pub(crate) fn lines(alloc: Global, script: &str) -> anyhow::Result<Vec<u8>> {
    let mut tree = PredecessorTree::new(alloc)?;
    let mut out = Vec::new(alloc);
    let mut index: u32 = 0;
    for line in script.lines() {
        call(alloc, &mut tree, index, line, &mut out)?;
        index = index.checked_add(1).ok_or(ScriptFault::NoForm)?;
    }
    Ok(out)
}

/// `add INPUTS OUTPUTS` adds the next number, `new` begins another tree.
fn call(
    alloc: Global,
    tree: &mut PredecessorTree,
    index: u32,
    line: &str,
    out: &mut Vec<u8>,
) -> anyhow::Result<()>
    requires { tree.old.next ≤ index }
    ensures { tree.new.next ≤ index + 1 }
{
    match words_of(alloc, line)?.as_slice() {
        ["new"] => {
            *tree = PredecessorTree::new(alloc)?;
            Ok(())
        }
        ["add", inputs, outputs] => add(alloc, tree, index, inputs, outputs, out),
        _ => Err(ScriptFault::NoForm.into()),
    }
}

/// Adds a number, and says what is given for it.
fn add(
    alloc: Global,
    tree: &mut PredecessorTree,
    index: u32,
    inputs: &str,
    outputs: &str,
    out: &mut Vec<u8>,
) -> anyhow::Result<()>
    requires { tree.old.next ≤ index }
    ensures { tree.new.next ≤ index + 1 }
{
    let inputs = prefixes_of(alloc, inputs)?;
    let outputs = prefixes_of(alloc, outputs)?;
    let given = tree.add(alloc, index, &inputs, &outputs)?;
    put_given(alloc, out, index, &given)?;
    Ok(())
}

fn put_given(
    alloc: Global,
    out: &mut Vec<u8>,
    index: u32,
    given: &[u32],
) -> Result<(), AllocError> {
    out.extend_from_slice(index.to_string(alloc)?.as_bytes())?;
    for number in given {
        put_number(alloc, out, *number)?;
    }
    out.push(b'\n')?;
    Ok(())
}

/// The prefixes of a word: a `+` stands before each; `-` has none.
fn prefixes_of(alloc: Global, word: &str) -> anyhow::Result<Vec<Prefix>> {
    let mut prefixes = Vec::new(alloc);
    for text in texts_of(alloc, word)?.as_slice() {
        prefixes.push(prefix_of(text)?)?;
    }
    Ok(prefixes)
}

fn prefix_of(text: &Text) -> anyhow::Result<Prefix> {
    Ok(Prefix::parse(text.as_str()).ok_or(ScriptFault::NoForm)?)
}
