//! Records and messages.

use saw_messages::*;
use saw_wire::{Bytes, Items, Text, Value, put_bytes, put_item, put_number, put_text, records};
use std::alloc::Global;
use std::test::Fail;

#[test]
fn a_setting_is_one_record(rt: HostRuntime) -> Result<(), Fail> {
    let setting = [0x0a, 0x06, 0x0a, 0x01, 0x61, 0x12, 0x01, 0x62];
    let found = records(rt.alloc(), &setting)?;
    assert!(rt; found.len() == 1);
    for one in &found {
        assert!(rt; one.field == 1);
        assert!(rt; one.value == Value::Span { from: 2, to: 8 });
    }
    assert!(rt; records(rt.alloc(), b"")?.len() == 0);
    Ok(())
}

#[test]
fn the_first_fault_is_told_with_its_place(rt: HostRuntime) {
    let faults: [(&[u8], WireFault); 7] = [
        (&[0x0a, 0x05, 0x61], WireFault::Cut { at: 0 }),
        (&[0x0b], WireFault::BadKey { at: 0 }),
        (&[0x07], WireFault::BadKey { at: 0 }),
        (&[0x80], WireFault::Cut { at: 0 }),
        (&[0x08, 0x01, 0x0b], WireFault::BadKey { at: 2 }),
        (
            &[0x08, 255, 255, 255, 255, 255, 255, 255, 255, 255, 255, 1],
            WireFault::LongVarint { at: 1 },
        ),
        (&[0x00, 0x80], WireFault::BadKey { at: 0 }),
    ];
    for (bytes, fault) in faults {
        assert!(rt; records(rt.alloc(), bytes).err() == Some(fault));
    }
}

#[test]
fn the_last_value_wins_and_unknown_fields_are_skipped(rt: HostRuntime) -> Result<(), Fail> {
    let bytes = [0x1a, 0x01, 0x61, 0x98, 0x06, 0x01, 0x1a, 0x02, 0x78, 0x6f];
    let header = decode_transaction_header(rt.alloc(), &bytes)?;
    assert!(rt; header.family_name.as_str() == "xo");
    let number = [
        0x08, 0x81, 0x80, 0x80, 0x80, 0x80, 0x80, 0x80, 0x80, 0x80, 0x00,
    ];
    assert!(rt; decode_block_header(rt.alloc(), &number)?.block_num == 1);
    let long = [
        0x08, 0x81, 0x80, 0x80, 0x80, 0x80, 0x80, 0x80, 0x80, 0x80, 0x80, 0x00,
    ];
    assert!(rt;
        decode_block_header(rt.alloc(), &long).err()
            == Some(MessageFault::Wire(WireFault::LongVarint { at: 1 }))
    );
    Ok(())
}

#[test]
fn a_batch_is_written_as_it_was_read(rt: HostRuntime) -> Result<(), Fail> {
    let bytes = [
        0x0a, 0x01, 7, 0x12, 0x01, 0x61, 0x1a, 0x00, 0x1a, 0x03, 0x1a, 0x01, 9, 0x20, 0x01,
    ];
    let batch = decode_batch(rt.alloc(), &bytes)?;
    assert!(rt; batch.transactions.len() == 2);
    assert!(rt; encode_batch(rt.alloc(), &batch)?.as_slice() == bytes.as_slice());
    let faulty = [0x1a, 0x03, 0x12, 0x01, 0xff, 0x12, 0x01, 0xff];
    assert!(rt;
        decode_batch(rt.alloc(), &faulty).err() == Some(MessageFault::NotUtf8 { field: 2 })
    );
    Ok(())
}

fn is_transaction_kept(alloc: Global, bytes: &[u8]) -> Result<bool, MessageFault> {
    let message = decode_transaction(alloc, bytes)?;
    Ok(encode_transaction(alloc, &message)?.as_slice() == bytes)
}

fn is_transaction_header_kept(alloc: Global, bytes: &[u8]) -> Result<bool, MessageFault> {
    let message = decode_transaction_header(alloc, bytes)?;
    Ok(encode_transaction_header(alloc, &message)?.as_slice() == bytes)
}

fn is_batch_header_kept(alloc: Global, bytes: &[u8]) -> Result<bool, MessageFault> {
    let message = decode_batch_header(alloc, bytes)?;
    Ok(encode_batch_header(alloc, &message)?.as_slice() == bytes)
}

fn is_batch_list_kept(alloc: Global, bytes: &[u8]) -> Result<bool, MessageFault> {
    let message = decode_batch_list(alloc, bytes)?;
    Ok(encode_batch_list(alloc, &message)?.as_slice() == bytes)
}

fn is_block_kept(alloc: Global, bytes: &[u8]) -> Result<bool, MessageFault> {
    let message = decode_block(alloc, bytes)?;
    Ok(encode_block(alloc, &message)?.as_slice() == bytes)
}

fn is_block_header_kept(alloc: Global, bytes: &[u8]) -> Result<bool, MessageFault> {
    let message = decode_block_header(alloc, bytes)?;
    Ok(encode_block_header(alloc, &message)?.as_slice() == bytes)
}

fn is_receipt_kept(alloc: Global, bytes: &[u8]) -> Result<bool, MessageFault> {
    let message = decode_receipt(alloc, bytes)?;
    Ok(encode_receipt(alloc, &message)?.as_slice() == bytes)
}

fn is_state_change_kept(alloc: Global, bytes: &[u8]) -> Result<bool, MessageFault> {
    let message = decode_state_change(alloc, bytes)?;
    Ok(encode_state_change(alloc, &message)?.as_slice() == bytes)
}

fn is_event_kept(alloc: Global, bytes: &[u8]) -> Result<bool, MessageFault> {
    let message = decode_event(alloc, bytes)?;
    Ok(encode_event(alloc, &message)?.as_slice() == bytes)
}

#[test]
fn headers_are_written_as_they_were_read(rt: HostRuntime) -> Result<(), Fail> {
    let text = [0x12, 0x01, 0x61].as_slice();
    assert!(rt; is_transaction_header_kept(rt.alloc(), text)?);
    assert!(rt; is_batch_header_kept(rt.alloc(), text)?);
    assert!(rt; is_block_header_kept(rt.alloc(), text)?);
    Ok(())
}

#[test]
fn blocks_and_their_parts_are_written_as_they_were_read(rt: HostRuntime) -> Result<(), Fail> {
    let text = [0x12, 0x01, 0x61].as_slice();
    assert!(rt; is_transaction_kept(rt.alloc(), text)?);
    assert!(rt; is_block_kept(rt.alloc(), text)?);
    let list = [0x0a, 0x00, 0x0a, 0x02, 0x20, 0x01].as_slice();
    assert!(rt; is_batch_list_kept(rt.alloc(), list)?);
    Ok(())
}

#[test]
fn receipts_and_their_parts_are_written_as_they_were_read(rt: HostRuntime) -> Result<(), Fail> {
    let receipt = [0x0a, 0x02, 0x18, 0x02, 0x12, 0x00, 0x22, 0x01, 0x61].as_slice();
    assert!(rt; is_receipt_kept(rt.alloc(), receipt)?);
    let change = [0x0a, 0x01, 0x61, 0x18, 0x01].as_slice();
    assert!(rt; is_state_change_kept(rt.alloc(), change)?);
    let event = [0x0a, 0x01, 0x61, 0x12, 0x00, 0x1a, 0x01, 0x62].as_slice();
    assert!(rt; is_event_kept(rt.alloc(), event)?);
    Ok(())
}

#[test]
fn fields_are_appended(rt: HostRuntime) -> Result<(), Fail> {
    let mut out = Vec::new(rt.alloc());
    put_number(&mut out, 1, 300)?;
    put_number(&mut out, 2, 0)?;
    put_text(&mut out, 3, "a")?;
    put_bytes(&mut out, 4, &[])?;
    put_item(&mut out, 536_870_911, &[])?;
    assert!(rt;
        out.as_slice()
            == [
                0x08, 0xac, 0x02, 0x1a, 0x01, 0x61, 0xfa, 0xff, 0xff, 0xff, 0x0f, 0x00
            ]
            .as_slice()
    );
    Ok(())
}

#[test]
fn texts_are_kept(rt: HostRuntime) -> Result<(), Fail> {
    let alloc = rt.alloc();
    let text = Text::from_string(String::from_str(alloc, "ab")?);
    assert!(rt; text > Text::from_str(alloc, "aa")? && text.len() == 2 && !text.is_empty());
    assert!(rt; text.try_clone(alloc)? == text && Text::new(alloc).is_empty());
    assert!(rt; text.into_string().as_str() == "ab");
    Ok(())
}

#[test]
fn bytes_are_kept(rt: HostRuntime) -> Result<(), Fail> {
    let alloc = rt.alloc();
    let bytes = Bytes::from_vec(b"ab".to_vec(alloc)?);
    assert!(rt; bytes > Bytes::from_slice(alloc, b"a")? && bytes.len() == 2 && !bytes.is_empty());
    assert!(rt; bytes.try_clone(alloc)? == bytes && Bytes::new(alloc).is_empty());
    assert!(rt; bytes.into_vec().as_slice() == b"ab".as_slice());
    Ok(())
}

#[test]
fn lists_are_kept(rt: HostRuntime) -> Result<(), Fail> {
    let mut items = Items::from_vec(vec![in rt.alloc(); 1u8]?);
    items.push(2)?;
    assert!(rt; items.len() == 2 && !items.is_empty() && Items::<u8>::new(rt.alloc()).is_empty());
    assert!(rt; items.into_vec().as_slice() == [1u8, 2].as_slice());
    Ok(())
}
