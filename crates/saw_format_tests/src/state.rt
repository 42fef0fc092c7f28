//! Addresses, CBOR, state nodes and the integer family.

use saw_address::{
    Address, Prefix, are_hex_digits, is_hex_text, is_prefix_text, sha256_hex, sha512_hex,
    sha512_hex64,
};
use saw_intkey::address_of;
use saw_node::{Child, Node, NodeHash, OneByte, empty_root, root_by, root_of};
use saw_wire::Bytes;
use std::collections::BTreeMap;
use std::test::Fail;

/// The address of the name `a`, by Python's hashlib.
const ADDRESS: &str = "1cf12602860c652bf08d560252aa5e74210546f369fbbbce8c12cfc7957b2652fe9a75";

// The digests of no bytes are those of the standard's implementations.
#[test]
fn digests_of_no_bytes(rt: HostRuntime) {
    let sha512 =
        b"cf83e1357eefb8bdf1542850d66d8007d620e4050b5715dc83f4a921d36ce9ce47d0d13c5d85f2b0ff8318d2877eec2f63b931bd47417a81a538327af927da3e";
    let sha256 = b"e3b0c44298fc1c149afbf4c8996fb92427ae41e4649b934ca495991b7852b855";
    assert!(rt; sha512_hex(b"").as_slice() == sha512.as_slice());
    assert!(rt; sha512_hex64(b"").as_slice() == &sha512[..64]);
    assert!(rt; sha256_hex(b"").as_slice() == sha256.as_slice());
}

#[test]
fn an_address_is_read_and_written(rt: HostRuntime) -> Result<(), Fail> {
    let address = Address::parse(ADDRESS).ok_or("an address")?;
    assert!(rt; address.to_hex().as_slice() == ADDRESS.as_bytes());
    assert!(rt; Address::parse("1cf126").is_none());
    assert!(rt; is_hex_text(70, ADDRESS) && are_hex_digits(ADDRESS.as_bytes()));
    let family = Prefix::parse("1cf126").ok_or("a prefix")?;
    let all = Prefix::parse("").ok_or("a prefix")?;
    assert!(rt; is_prefix_text("1cf126"));
    assert!(rt; Prefix::parse("1cf12").is_none());
    assert!(rt; family.as_slice() == &address.as_slice()[..3]);
    assert!(rt; family.covers(&address));
    assert!(rt; family.overlaps(&all));
    Ok(())
}

#[test]
fn an_address_begins_with_its_prefixes(rt: HostRuntime) -> Result<(), Fail> {
    let address = Address::parse(ADDRESS).ok_or("an address")?;
    for text in ["", "1cf126", ADDRESS] {
        assert!(rt; address.begins_with(text));
    }
    // Half a byte, other digits, upper case, no digits, and one byte too many.
    let longer = "1cf12602860c652bf08d560252aa5e74210546f369fbbbce8c12cfc7957b2652fe9a7500";
    for text in ["1cf12", "1cf127", "1CF126", "1cf1/6", longer] {
        assert!(rt; !address.begins_with(text));
    }
    Ok(())
}

#[test]
fn an_item_is_read_and_written(rt: HostRuntime) -> Result<(), Fail> {
    let alloc = rt.alloc();
    // {"c": {}, "v": null}
    let bytes = b"\xa2\x61c\xa0\x61v\xf6".as_slice();
    let item = saw_cbor::decode(alloc, bytes, 4)?;
    assert!(rt; saw_cbor::encode(alloc, &item)?.as_slice() == bytes);
    assert!(rt; saw_cbor::decode(alloc, &bytes[..6], 4).is_err());
    Ok(())
}

#[test]
fn a_node_is_read_and_written(rt: HostRuntime) -> Result<(), Fail> {
    let alloc = rt.alloc();
    let bytes = b"\xa2\x61c\xa0\x61v\x44\xa1\x61\x61\x05".as_slice();
    let node = saw_node::decode(alloc, bytes)?.ok_or("a node")?;
    assert!(rt; saw_node::encode(alloc, &node)?.as_slice() == bytes);
    assert!(rt; saw_node::decode(alloc, b"\xa2\x61c\xa0\x61v\x58\x04\xa1\x61\x61\x05")?.is_none());
    Ok(())
}

// {"c": {"ab": "1010..10"}, "v": null}
#[test]
fn a_child_is_two_texts_of_digits(rt: HostRuntime) -> Result<(), Fail> {
    let alloc = rt.alloc();
    let hash = NodeHash::new([0x10; 32]);
    let mut bytes = b"\xa2\x61c\xa1\x62ab\x78\x40".to_vec(alloc)?;
    bytes.extend_from_slice(&hash.to_hex())?;
    bytes.extend_from_slice(b"\x61v\xf6")?;
    assert!(rt; bytes.len() == 76);
    let node = saw_node::decode(alloc, &bytes)?.ok_or("a node")?;
    assert!(rt; node.value().is_none() && node.children().len() == 1);
    for child in node.children() {
        assert!(rt; child.byte == 0xab && child.hash == hash);
    }
    assert!(rt; saw_node::encode(alloc, &node)?.as_slice() == bytes.as_slice());
    Ok(())
}

// Neither, an only child in place, and {"c": {"ab": "1010..10", "cd": "1010..10"}, "v": h'05'}.
#[test]
fn nodes_are_what_they_were_made_of(rt: HostRuntime) -> Result<(), Fail> {
    let alloc = rt.alloc();
    let hash = NodeHash::new([0x10; 32]);
    let empty = Node::empty(alloc);
    assert!(rt; empty.value().is_none() && empty.children().is_empty());
    let one = Node::above_one(Child { byte: 1, hash });
    assert!(rt; one.value().is_none() && one.children().len() == 1);
    let mut bytes = b"\xa2\x61c\xa2\x62ab\x78\x40".to_vec(alloc)?;
    bytes.extend_from_slice(&hash.to_hex())?;
    bytes.extend_from_slice(b"\x62cd\x78\x40")?;
    bytes.extend_from_slice(&hash.to_hex())?;
    bytes.extend_from_slice(b"\x61v\x41\x05")?;
    let both = saw_node::decode(alloc, &bytes)?.ok_or("a node")?;
    assert!(rt; both.value().is_some() && both.children().len() == 2);
    Ok(())
}

#[test]
fn a_root_is_that_of_its_map(rt: HostRuntime) -> Result<(), Fail> {
    let alloc = rt.alloc();
    // By Python's hashlib.
    let digits = b"708ca7fbb701799bb387f2e50deaca402e8502abe229f705693d2d4f350e1ad6";
    assert!(rt; empty_root().to_hex().as_slice() == digits.as_slice());
    let mut map: BTreeMap<Address, Bytes> = BTreeMap::new(alloc);
    assert!(rt; root_of(alloc, &map)?.to_hex().as_slice() == digits.as_slice());
    let mut one = [0; 32];
    one[0] = 0x70;
    assert!(rt; root_by::<OneByte>(alloc, &map)?.as_slice() == one.as_slice());
    let _ = map.insert(address_of("a"), Bytes::new(alloc))?;
    assert!(rt; root_of(alloc, &map)? != empty_root());
    Ok(())
}

#[test]
fn names_have_their_addresses(rt: HostRuntime) {
    assert!(rt; address_of("a").to_hex().as_slice() == ADDRESS.as_bytes());
}
