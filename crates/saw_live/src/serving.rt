//! Questions of a reader, and their answers.

ghost use Rattle.std.specs.Prelude.{◌≡◌, ◌≤◌, ◌⊎◌, IfErr, IfOk, IsErrOf, OnOk, ◌++◌, true, false};
ghost use Rattle.std.specs.List.{list_all};
ghost use Rattle.saw_address.specs.Texts.{is_address_text, is_hex_digit};
ghost use Rattle.saw_faults.specs.Counts.{Rose};
ghost use Rattle.saw_live.specs.Cells.{leads_to, own_cell};
ghost use Rattle.saw_live.specs.Heads.{StartsWith};
ghost use Rattle.saw_live.specs.Passes.{IsSame, history};
ghost use Rattle.saw_live.specs.Serving.{IsAnswer, IsFault, IsServed, IsServedUntil, ServesNext, bytes_in, moment, reply_text, value_text};
ghost use Rattle.hex.specs.Hex.{decode_of};

use crate::live::Live;
use crate::pass::LivePass;
use crate::reader::{Reader, ReaderFault};
use crate::reply::LiveReply;
use itoa::Buffer;
use saw_address::Address;
use saw_io::{Sink, Source, read_frame, write_frame};
use saw_node::NodeHasher;
use saw_wire::Bytes;
use std::alloc::{AllocError, Global};
use std::sync::Wait;

/// The longest question: the digits of an address.
const MAX_QUESTION: u32 = 70;

/// How many answers one reader gets.
const MAX_ANSWERS: u64 = 1_000_000;

fn is_hex_digit(c: u8) -> bool
    ensures { result ≡ is_hex_digit c }
{
    (b'0'..=b'9').contains(&c) || (b'a'..=b'f').contains(&c)
}

fn are_hex_digits(frame: &[u8]) -> bool
    ensures { result ≡ list_all is_hex_digit frame.now }
{
    frame.iter().all(|c| is_hex_digit(*c))
}

fn is_question(frame: &[u8]) -> bool
    ensures { result ≡ is_address_text frame.now }
{
    frame.len() == 70 && are_hex_digits(frame)
}

// The address that the digits stand for.
fn address_of(question: &[u8]) -> Address
    requires { is_address_text question.now ≡ true }
    ensures { result ≡ bytes_in (decode_of question.now) }
{
    let mut bytes = [0; 35];
    let _ = hex::decode_to_slice(question, &mut bytes);
    Address::new(bytes)
}

fn put_value(alloc: Global, out: &mut Vec<u8>, value: &Option<Bytes>) -> Result<(), AllocError>
    ensures { OnOk result (out.new.items ≡ out.old.items ++ value_text value.now) }
{
    match value {
        Some(value) => out.extend_from_slice(hex::encode(alloc, value.as_slice())?.as_bytes())?,
        None => out.push(b'-')?,
    }
    Ok(())
}

fn text_of(alloc: Global, reply: &LiveReply) -> Result<Vec<u8>, AllocError>
    ensures { IfOk result (λ text. text.items ≡ reply_text reply.now) }
{
    let mut out = Vec::new(alloc);
    match reply {
        LiveReply::NoHead => out.extend_from_slice(b"none")?,
        LiveReply::At {
            number,
            id,
            root,
            value,
        } => {
            out.extend_from_slice(Buffer::new().format(*number).as_bytes())?;
            out.push(b' ')?;
            out.extend_from_slice(id.as_str().as_bytes())?;
            out.push(b' ')?;
            out.extend_from_slice(&root.to_hex())?;
            out.push(b' ')?;
            put_value(alloc, &mut out, value)?;
        }
    }
    Ok(out)
}

// The answer to a frame.
fn answer<H: NodeHasher, R: Wait>(
    rt: &R,
    alloc: Global,
    live: &Live<H>,
    pass: &mut LivePass,
    question: &[u8],
) -> Result<Vec<u8>, AllocError>
    requires { leads_to pass.old ≡ own_cell live.now }
    ensures cell { leads_to pass.new ≡ leads_to pass.old }
    ensures later { StartsWith (history pass.new) (history pass.old) }
    ensures same { IsSame pass.old pass.new }
    ensures is { IfOk result (λ text. IsAnswer H.hash_of (history pass.old) (history pass.new) question.now text.items) }
{
    if !is_question(question) {
        let mut out = Vec::new(alloc);
        out.extend_from_slice(b"refused")?;
        return Ok(out);
    }
    let at = address_of(question);
    let reply = live.ask(rt, alloc, pass, &at)?;
    text_of(alloc, &reply)
}

// Answers the next frame. `false`: there is none.
fn serve_one<H: NodeHasher, A: Source + Drop, K: Sink + Drop, R: Wait>(
    rt: &R,
    alloc: Global,
    reader: &mut Reader<A, K>,
    live: &Live<H>,
    pass: &mut LivePass,
) -> Result<bool, ReaderFault>
    requires { leads_to pass.old ≡ own_cell live.now }
    ensures cell { leads_to pass.new ≡ leads_to pass.old }
    ensures same { IsSame pass.old pass.new }
    ensures end { reader.new.end ≡ reader.old.end }
    ensures next { IfOk result (ServesNext H.hash_of
        (moment (A.unread reader.old.source) (K.written reader.old.sink) (history pass.old))
        (moment (A.unread reader.new.source) (K.written reader.new.sink) (history pass.new))) }
    ensures fault { IfErr result (IsFault H.hash_of
        (moment (A.unread reader.old.source) (K.written reader.old.sink) (history pass.old))
        (moment (A.unread reader.new.source) (K.written reader.new.sink) (history pass.new))) }
    ensures later { (A.faults reader.old.source ≤ A.faults reader.new.source) × (K.faults reader.old.sink ≤ K.faults reader.new.sink) }
    ensures cause { IsErrOf result ReaderFault.Failed → Rose (A.faults reader.old.source) (A.faults reader.new.source)
        ⊎ Rose (K.faults reader.old.sink) (K.faults reader.new.sink) }
{
    let Some(question) = read_frame(alloc, &mut reader.source, MAX_QUESTION)? else {
        return Ok(false);
    };
    let text = answer(rt, alloc, live, pass, &question)?;
    write_frame(&mut reader.sink, &text)?;
    Ok(true)
}

/// Answers the frames of a reader in their order, and gives how many there were: until its source ends, or as often as
/// one reader gets an answer. A frame of an address's 70 hex digits is answered by `none`, or by the head's number, id
/// and root and the value in hex digits, `-` where there is no entry; another frame by `refused`.
pub fn serve_reader<H: NodeHasher, A: Source + Drop, K: Sink + Drop, R: Wait>(
    rt: &R,
    alloc: Global,
    reader: &mut Reader<A, K>,
    live: &Live<H>,
    pass: &mut LivePass,
) -> Result<u64, ReaderFault>
    requires { leads_to pass.old ≡ own_cell live.now }
    ensures cell { leads_to pass.new ≡ leads_to pass.old }
    ensures same { IsSame pass.old pass.new }
    ensures end { reader.new.end ≡ reader.old.end }
    ensures ok { IfOk result (IsServed H.hash_of
        (moment (A.unread reader.old.source) (K.written reader.old.sink) (history pass.old))
        (moment (A.unread reader.new.source) (K.written reader.new.sink) (history pass.new))) }
    ensures err { IfErr result (IsServedUntil H.hash_of
        (moment (A.unread reader.old.source) (K.written reader.old.sink) (history pass.old))
        (moment (A.unread reader.new.source) (K.written reader.new.sink) (history pass.new))) }
    ensures later { (A.faults reader.old.source ≤ A.faults reader.new.source) × (K.faults reader.old.sink ≤ K.faults reader.new.sink) }
    ensures cause { IsErrOf result ReaderFault.Failed → Rose (A.faults reader.old.source) (A.faults reader.new.source)
        ⊎ Rose (K.faults reader.old.sink) (K.faults reader.new.sink) }
{
    let mut answers = 0;
    while answers < MAX_ANSWERS {
        if !serve_one(rt, alloc, reader, live, pass)? {
            return Ok(answers);
        }
        answers += 1;
    }
    Ok(answers)
}
