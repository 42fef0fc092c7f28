//! Batches, and states with policies and roles.

use saw_address::Address;
use saw_identity::{
    Entry, Policy, PolicyList, Role, RoleList, encode_policy_list, encode_role_list,
    policy_address, role_address,
};
use saw_messages::{PlainBase, TransactionHeader, Tx, TxBatch, encode_transaction_header};
use saw_wire::{Bytes, Items, Message, Text};
use std::alloc::{AllocError, Global};
use std::collections::BTreeMap;
use std::sync::Arc;
use std::test::Fail;

/// Entries that permit (1) or deny (2) a key.
pub(crate) type Entries<'a> = &'a [(u32, &'a str)];

fn header(alloc: Global, family: &str, signer: &str) -> Result<Vec<u8>, AllocError> {
    let mut header = TransactionHeader::empty(alloc);
    header.family_name = Text::from_str(alloc, family)?;
    header.family_version = Text::from_str(alloc, "1.0")?;
    header.signer_public_key = Text::from_str(alloc, signer)?;
    encode_transaction_header(alloc, &header)
}

/// A transaction of a family.
pub(crate) fn tx(alloc: Global, family: &str, signer: &str) -> Result<Arc<Tx>, Fail> {
    let header = Bytes::from_vec(header(alloc, family, signer)?);
    let tx = Tx::read(alloc, Text::new(alloc), header, Bytes::new(alloc))?;
    Ok(Arc::new(alloc, tx)?)
}

/// A batch by a signer, of a transaction of each of these families by each of these signers.
pub(crate) fn batch(alloc: Global, signer: &str, txs: &[(&str, &str)]) -> Result<TxBatch, Fail> {
    let mut list = Items::new(alloc);
    for (family, key) in txs {
        list.push(tx(alloc, family, key)?)?;
    }
    Ok(TxBatch {
        id: Text::new(alloc),
        signer: Text::from_str(alloc, signer)?,
        txs: list,
    })
}

fn policy(alloc: Global, name: &str, list: Entries<'_>) -> Result<Policy, AllocError> {
    let mut entries = Items::new(alloc);
    for (kind, key) in list {
        entries.push(Entry {
            kind: *kind,
            key: Text::from_str(alloc, key)?,
        })?;
    }
    Ok(Policy {
        name: Text::from_str(alloc, name)?,
        entries,
    })
}

fn kept_policy(alloc: Global, name: &str, list: Entries<'_>) -> Result<Bytes, AllocError> {
    let mut policies = Items::new(alloc);
    policies.push(policy(alloc, name, list)?)?;
    let bytes = encode_policy_list(alloc, &PolicyList { policies })?;
    Ok(Bytes::from_vec(bytes))
}

fn kept_role(alloc: Global, name: &str, policy: &str) -> Result<Bytes, AllocError> {
    let mut roles = Items::new(alloc);
    roles.push(Role {
        name: Text::from_str(alloc, name)?,
        policy_name: Text::from_str(alloc, policy)?,
    })?;
    let bytes = encode_role_list(alloc, &RoleList { roles })?;
    Ok(Bytes::from_vec(bytes))
}

fn put_policies(
    alloc: Global,
    map: &mut BTreeMap<Address, Bytes>,
    policies: &[(&str, Entries<'_>)],
) -> Result<(), AllocError> {
    for (name, list) in policies {
        map.insert(policy_address(name), kept_policy(alloc, name, list)?)?;
    }
    Ok(())
}

/// A state with policies, and with roles under them.
pub(crate) fn state(
    alloc: Global,
    policies: &[(&str, Entries<'_>)],
    roles: &[(&str, &str)],
) -> Result<PlainBase, AllocError> {
    let mut map = BTreeMap::new(alloc);
    put_policies(alloc, &mut map, policies)?;
    for (name, policy) in roles {
        map.insert(role_address(name), kept_role(alloc, name, policy)?)?;
    }
    Ok(PlainBase { map })
}
