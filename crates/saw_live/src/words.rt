//! Ids and roots in words of eight bytes, the highest first.

ghost use Rattle.std.specs.Prelude.{◌≡◌, ◌≤◌, ◌+◌, ◌*◌, ◌++◌, true, drop, length, take, slice_index, IfOk};
ghost use Rattle.std.specs.Int.{to_be_bytes, w64};
ghost use Rattle.hex.specs.Hex.{encode_lower};
ghost use Rattle.saw_address.specs.Texts.{is_hex_text};
ghost use Rattle.saw_live.specs.Heads.{head_of, head_words};
ghost use Rattle.saw_live.specs.Words.{bytes_of};

use crate::rule::HeadWords;
use saw_node::NodeHash;
use saw_wire::Text;
use std::alloc::{AllocError, Global};

// A word of the bytes.
fn word_at(bytes: &[u8], at: usize) -> u64
    requires { 8 * at + 8 ≤ length bytes.now }
    ensures { to_be_bytes w64 result ≡ take 8 (drop (8 * at) bytes.now) }
{
    let mut word = [0; 8];
    word.copy_from_slice(&bytes[8 * at..8 * at + 8]);
    u64::from_be_bytes(word)
}

pub(crate) fn root_words(root: &NodeHash) -> [u64; 4]
    ensures { bytes_of result ≡ root.now }
{
    let bytes = root.as_slice();
    [
        word_at(bytes, 0),
        word_at(bytes, 1),
        word_at(bytes, 2),
        word_at(bytes, 3),
    ]
}

// The words of 64 bytes.
fn eight_words(bytes: &[u8]) -> [u64; 8]
    requires { length bytes.now ≡ 64 }
    ensures { bytes_of result ≡ bytes.now }
{
    [
        word_at(bytes, 0),
        word_at(bytes, 1),
        word_at(bytes, 2),
        word_at(bytes, 3),
        word_at(bytes, 4),
        word_at(bytes, 5),
        word_at(bytes, 6),
        word_at(bytes, 7),
    ]
}

pub(crate) fn id_words(id: &Text) -> [u64; 8]
    requires { is_hex_text 128 id.now ≡ true }
    ensures { encode_lower (bytes_of result) ≡ id.now }
{
    let mut bytes = [0; 64];
    let _ = hex::decode_to_slice(id.as_str().as_bytes(), &mut bytes);
    eight_words(&bytes)
}

// The bytes of words.
fn bytes_of(alloc: Global, words: &[u64]) -> Result<Vec<u8>, AllocError>
    ensures { IfOk result (λ bytes. bytes.items ≡ bytes_of words.now) }
{
    let mut bytes = Vec::new(alloc);
    for word in words {
        bytes.extend_from_slice(&word.to_be_bytes())?;
    }
    Ok(bytes)
}

/// The digits that the words of an id stand for.
pub(crate) fn id_of(alloc: Global, words: &[u64; 8]) -> Result<Text, AllocError>
    ensures { IfOk result (λ id. id ≡ encode_lower (bytes_of words.now)) }
{
    let bytes = bytes_of(alloc, words)?;
    Ok(Text::from_string(hex::encode(alloc, &bytes)?))
}

/// The words of the cell: how many heads there are, and the last one.
pub(crate) fn cell_words(count: u64, id: &[u64; 8], root: &[u64; 4]) -> [u64; 13]
    ensures count { slice_index result 0 ≡ count }
    ensures head { head_of result ≡ head_words id.now root.now }
{
    [
        count, id[0], id[1], id[2], id[3], id[4], id[5], id[6], id[7], root[0], root[1], root[2],
        root[3],
    ]
}

/// The head that the words show.
pub(crate) fn head_of(words: &[u64; 13]) -> HeadWords
    ensures { result ≡ head_of words.now }
{
    HeadWords {
        id: [
            words[1], words[2], words[3], words[4], words[5], words[6], words[7], words[8],
        ],
        root: [words[9], words[10], words[11], words[12]],
    }
}
