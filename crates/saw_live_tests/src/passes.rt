//! Two passes: the first publishes heads, and both ask.

ghost use Rattle.std.specs.Prelude.{◌≡◌, ◌<◌, ◌-◌, ◌^◌, ◌+◌, [], true, length, IfOk, OnOk};
ghost use Rattle.saw_node.specs.Hashes.{first_half};
ghost use Rattle.saw_live.specs.Cells.{leads_to, own_cell};
ghost use Rattle.saw_live.specs.Passes.{IsFresh, IsKnownIn, history, publishes};

use saw_address::{Address, is_hex_text};
use saw_context::Overlay;
use saw_live::{Live, LiveParts, LivePass, LiveReply};
use saw_merkle::State;
use saw_messages::Change;
use saw_node::{NodeHash, Sha512Half, empty_root};
use saw_receipts::{BlockRecord, NO_BLOCK};
use saw_wire::{Bytes, Items, Text};
use std::alloc::{AllocError, Global};
use std::sync::Wait;
use std::test::Fail;
use std::thread::Threads;

pub(crate) const ID: &str =
    "11111111111111111111111111111111111111111111111111111111111111112222222222222222222222222222222222222222222222222222222222222222";

/// The entry of the IntegerKey name `a` with the numbers 5 and 7.
pub(crate) const FIVE: [u8; 4] = [0xa1, 0x61, 0x61, 5];

const SEVEN: [u8; 4] = [0xa1, 0x61, 0x61, 7];

/// The address of that name.
fn address() -> Result<Address, Fail> {
    let text = "1cf12602860c652bf08d560252aa5e74210546f369fbbbce8c12cfc7957b2652fe9a75";
    Ok(Address::parse(text).ok_or("an address")?)
}

/// The root of the state in which that name has this entry.
pub(crate) fn root_of<T: Threads + Sync>(
    rt: &T,
    alloc: Global,
    state: &mut State<Sha512Half>,
    entry: &[u8],
) -> Result<NodeHash, Fail> {
    let mut gathered = Overlay::new(alloc);
    gathered.change(Change {
        address: address()?,
        value: Some(Bytes::from_slice(alloc, entry)?),
    })?;
    let changes = gathered.into_changes(alloc)?;
    if state.tree(&empty_root()).is_none() {
        return Err("a known root".into());
    }
    Ok(state.update(rt, &empty_root(), changes.as_slice(), 1)?)
}

/// A block with this id and root.
fn block(alloc: Global, id: &str, root: NodeHash) -> Result<BlockRecord, AllocError>
    ensures { IfOk result (λ made. (made.id ≡ id.now) × (made.root ≡ root)) }
{
    Ok(BlockRecord {
        id: Text::from_str(alloc, id)?,
        number: 0,
        previous: Text::from_str(alloc, NO_BLOCK)?,
        signer: Text::new(alloc),
        root,
        batches: Items::new(alloc),
    })
}

/// Publishes a head with this id, and the state of this root.
pub(crate) fn publish<R: Wait>(
    rt: &R,
    alloc: Global,
    live: &Live<Sha512Half>,
    pass: &mut LivePass,
    root: &NodeHash,
    state: &State<Sha512Half>,
) -> Result<(), Fail>
    requires cell { leads_to pass.old ≡ own_cell live.now }
    requires first { publishes pass.old ≡ true }
    requires room { length (history pass.old) < 2 ^ 64 - 1 }
    requires kept { IsKnownIn state.now pass.old }
    ensures cell { leads_to pass.new ≡ leads_to pass.old }
    ensures first { OnOk result (publishes pass.new ≡ true) }
    ensures one_more { OnOk result (length (history pass.new) ≡ length (history pass.old) + 1) }
    ensures kept { OnOk result (IsKnownIn state.now pass.new) }
{
    if !is_hex_text(128, ID) || state.tree(root).is_none() {
        return Err("an id and a known root".into());
    }
    let block = block(alloc, ID, *root)?;
    live.publish(rt, alloc, pass, &block, state)?;
    Ok(())
}

/// Whether it tells the head with this number and root, and this value.
fn tells(reply: &LiveReply, place: u64, root: &NodeHash, value: Option<&[u8]>) -> bool {
    match reply {
        LiveReply::NoHead => false,
        LiveReply::At {
            number,
            id,
            root: of,
            value: told,
        } => {
            let same = match (told, value) {
                (Some(told), Some(value)) => told.as_slice() == value,
                (None, None) => true,
                _ => false,
            };
            *number == place && id.as_str() == ID && of == root && same
        }
    }
}

/// What two passes share: the one that publishes, and a reader.
pub(crate) fn two_passes(alloc: Global) -> Result<(Live<Sha512Half>, LivePass, LivePass), Fail>
    ensures first { IfOk result (λ all. (leads_to all.1 ≡ own_cell all.0)
        × (publishes all.1 ≡ true) × (history all.1 ≡ []) × IsFresh first_half all.1) }
    ensures second { IfOk result (λ all. leads_to all.2 ≡ own_cell all.0) }
{
    let LiveParts { live, mut passes } = Live::new(alloc, 2)?;
    let second = passes.pop().ok_or("a second pass")?;
    let first = passes.pop().ok_or("a first pass")?;
    Ok((live, first, second))
}

#[test]
fn both_see_what_the_first_publishes(rt: HostRuntime) -> Result<(), Fail> {
    let alloc = rt.alloc();
    let mut state: State<Sha512Half> = State::new(alloc)?;
    let root = root_of(&rt, alloc, &mut state, &FIVE)?;
    state.sound();
    let (live, mut first, mut second) = two_passes(alloc)?;
    let at = address()?;
    assert!(rt; first.publishes() && !second.publishes());
    assert!(rt; matches!(live.ask(&rt, alloc, &mut second, &at)?, LiveReply::NoHead));
    publish(&rt, alloc, &live, &mut first, &root, &state)?;
    assert!(rt;
        tells(
            &live.ask(&rt, alloc, &mut second, &at)?,
            0,
            &root,
            Some(&FIVE)
        )
    );
    assert!(rt;
        tells(
            &live.ask(&rt, alloc, &mut first, &at)?,
            0,
            &root,
            Some(&FIVE)
        )
    );
    Ok(())
}

#[test]
fn a_reader_follows_the_heads(rt: HostRuntime) -> Result<(), Fail> {
    let alloc = rt.alloc();
    let mut state: State<Sha512Half> = State::new(alloc)?;
    let five = root_of(&rt, alloc, &mut state, &FIVE)?;
    let seven = root_of(&rt, alloc, &mut state, &SEVEN)?;
    state.sound();
    let (live, mut first, mut second) = two_passes(alloc)?;
    let at = address()?;
    publish(&rt, alloc, &live, &mut first, &five, &state)?;
    publish(&rt, alloc, &live, &mut first, &seven, &state)?;
    assert!(rt;
        tells(
            &live.ask(&rt, alloc, &mut second, &at)?,
            1,
            &seven,
            Some(&SEVEN)
        )
    );
    publish(&rt, alloc, &live, &mut first, &empty_root(), &state)?;
    assert!(rt;
        tells(
            &live.ask(&rt, alloc, &mut second, &at)?,
            2,
            &empty_root(),
            None
        )
    );
    Ok(())
}

#[test]
fn a_reader_that_asked_is_retired(rt: HostRuntime) -> Result<(), Fail> {
    let alloc = rt.alloc();
    let mut state: State<Sha512Half> = State::new(alloc)?;
    let five = root_of(&rt, alloc, &mut state, &FIVE)?;
    let seven = root_of(&rt, alloc, &mut state, &SEVEN)?;
    state.sound();
    let (live, mut first, mut second) = two_passes(alloc)?;
    let at = address()?;
    publish(&rt, alloc, &live, &mut first, &five, &state)?;
    let asked = live.ask(&rt, alloc, &mut second, &at)?;
    assert!(rt; tells(&asked, 0, &five, Some(&FIVE)));
    live.retire(&rt, &mut first, second);
    publish(&rt, alloc, &live, &mut first, &seven, &state)?;
    let asked = live.ask(&rt, alloc, &mut first, &at)?;
    assert!(rt; first.publishes() && tells(&asked, 1, &seven, Some(&SEVEN)));
    Ok(())
}

#[test]
fn a_head_of_another_state_follows_one_that_is_forgotten(rt: HostRuntime) -> Result<(), Fail> {
    let alloc = rt.alloc();
    let mut state: State<Sha512Half> = State::new(alloc)?;
    let mut other: State<Sha512Half> = State::new(alloc)?;
    let five = root_of(&rt, alloc, &mut state, &FIVE)?;
    let seven = root_of(&rt, alloc, &mut other, &SEVEN)?;
    state.sound();
    other.sound();
    let (live, mut first, mut second) = two_passes(alloc)?;
    publish(&rt, alloc, &live, &mut first, &five, &state)?;
    assert!(rt; other.tree(&five).is_none());
    first.forget::<Sha512Half>(alloc)?;
    publish(&rt, alloc, &live, &mut first, &seven, &other)?;
    let asked = live.ask(&rt, alloc, &mut second, &address()?)?;
    assert!(rt; tells(&asked, 1, &seven, Some(&SEVEN)));
    Ok(())
}
