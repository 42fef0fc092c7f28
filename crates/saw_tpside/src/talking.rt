//! What a peer in memory hears and says.

ghost use Rattle.std.specs.Prelude.{◌≡◌, ◌<◌, ◌∷◌, ◌++◌, [], Some, None, length, vec_len, vec_capacity, option_map, IfOk, IfSome, IfNone, IsErr, IsErrOf, OnOk, OnErr};
ghost use Rattle.saw_link.specs.LinkConversation.{Obeys};
ghost use Rattle.saw_link.specs.declared.passed.Passed.TheVariants.{Sent, Received, Ended};
ghost use Rattle.saw_tpside.specs.FamilyPeers.{HasCome, IsTooLong, due_from, is_above, family_next, spoken_from, taken_from};
ghost use Rattle.saw_tpside.specs.ProcessorConversation.{after_sent};
ghost use Rattle.saw_tpside.specs.Understood.{IsUnderstood};

use crate::exchange::{due, take};
use crate::serving::{Serving, after_sent, limit_at};
use saw_link::Passed;
use saw_wire::Bytes;
use std::alloc::{AllocError, AllocFailed, Global};

/// Why no frame was said.
#[derive(Drop)]
pub(crate) enum Unspoken {
    TooLong,
    OutOfMemory,
}

impl From<AllocError> for Unspoken {
    ghost use Rattle.saw_tpside.specs.declared.talking.Unspoken.TheVariants as unspoken;

    ghost from_gives = { λ _ e. e ≡ unspoken.OutOfMemory };

    fn from(_: AllocError) -> Self {
        Unspoken::OutOfMemory
    }
}

impl<T: Drop> From<AllocFailed<T>> for Unspoken {
    ghost use Rattle.saw_tpside.specs.declared.talking.Unspoken.TheVariants as unspoken;

    ghost from_gives = { λ _ e. e ≡ unspoken.OutOfMemory };

    fn from(_: AllocFailed<T>) -> Self {
        Unspoken::OutOfMemory
    }
}

fn taken_from(
    alloc: Global,
    serving: Option<Serving>,
    frame: &[u8],
) -> Result<Option<Serving>, AllocError>
    ensures { IfOk result (λ next. next ≡ taken_from serving frame.now) }
{
    match serving {
        Some(serving) => take(alloc, serving, frame),
        None => Ok(None),
    }
}

// Goes on behind a frame of the station. Where memory is wanting the peer says nothing any more.
fn advance(alloc: Global, serving: &mut Option<Serving>, frame: &[u8]) -> Result<(), AllocError>
    ensures ok { OnOk result (serving.new ≡ taken_from serving.old frame.now) }
    ensures err { OnErr result (serving.new ≡ None) }
{
    match taken_from(alloc, serving.take(), frame) {
        Ok(next) => {
            *serving = next;
            Ok(())
        }
        Err(e) => Err(e),
    }
}

// One more, for which there is room.
fn put(list: &mut Vec<Passed>, one: Passed)
    requires { vec_len list.old < vec_capacity list.old }
    ensures { list.new.items ≡ list.old.items ++ one ∷ [] }
{
    match list.push(one) {
        Ok(()) => {}
        Err(_) => {}
    }
}

/// Hears a frame of the station. Where memory is wanting nothing has passed.
pub(crate) fn hear(
    alloc: Global,
    serving: &mut Option<Serving>,
    passed: &mut Vec<Passed>,
    frame: &[u8],
) -> Result<(), AllocError>
    ensures ok { OnOk result (passed.new.items ≡ passed.old.items ++ Sent frame.now ∷ []) }
    ensures taken { OnOk result (serving.new ≡ taken_from serving.old frame.now) }
    ensures err { OnErr result (passed.new.items ≡ passed.old.items) }
    ensures come { HasCome passed.old.items serving.old → HasCome passed.new.items serving.new }
{
    let kept = Bytes::from_slice(alloc, frame)?;
    passed.reserve(1)?;
    advance(alloc, serving, frame)?;
    put(passed, Passed::Sent(kept));
    Ok(())
}

fn due_from(alloc: Global, serving: &Option<Serving>) -> Result<Option<Vec<u8>>, AllocError>
    ensures value { IfOk result (λ made. option_map (λ frame. frame.items) made ≡ due_from serving.now) }
    ensures understood { IfOk result (λ made. IfSome made (λ frame. IfSome serving.now (λ p. IsUnderstood p frame.items))) }
{
    match serving {
        Some(serving) => due(alloc, serving),
        None => Ok(None),
    }
}

fn is_above(serving: &Option<Serving>, frame: &[u8]) -> bool
    ensures { result ≡ is_above serving.now (length frame.now) }
{
    match serving {
        Some(serving) => limit_at(serving) < frame.len(),
        None => false,
    }
}

// Goes on behind the frame that was due.
fn go_on(serving: &mut Option<Serving>)
    ensures { IfSome serving.old (λ p. serving.new ≡ Some (after_sent p)) }
{
    if let Some(held) = serving.take() {
        *serving = Some(after_sent(held));
    }
}

/// Says the frame that is due. `None`: none is, and the peer ends the link.
pub(crate) fn speak(
    alloc: Global,
    serving: &mut Option<Serving>,
    passed: &mut Vec<Passed>,
) -> Result<Option<Vec<u8>>, Unspoken>
    ensures frame { IfOk result (λ got. IfSome got (λ frame. passed.new.items ≡ passed.old.items ++ Received frame.items ∷ [])) }
    ensures ended { IfOk result (λ got. IfNone got (passed.new.items ≡ passed.old.items ++ Ended ∷ [])) }
    ensures due { IfOk result (λ got. option_map (λ frame. frame.items) got ≡ due_from serving.old) }
    ensures next { OnOk result (serving.new ≡ spoken_from serving.old) }
    ensures err { OnErr result ((passed.new.items ≡ passed.old.items) × (serving.new ≡ serving.old)) }
    ensures long { IsTooLong serving.old → IsErr result }
    ensures why { IsErrOf result Unspoken.TooLong → IsTooLong serving.old }
    ensures come { HasCome passed.old.items serving.old → HasCome passed.new.items serving.new }
    ensures obeys { HasCome passed.old.items serving.old
        → IfOk result (λ got. IfSome got (λ frame. Obeys family_next (Some passed.old.items) frame.items)) }
{
    let Some(frame) = due_from(alloc, serving)? else {
        passed.push(Passed::Ended)?;
        return Ok(None);
    };
    if is_above(serving, &frame) {
        return Err(Unspoken::TooLong);
    }
    let kept = Bytes::from_slice(alloc, &frame)?;
    passed.push(Passed::Received(kept))?;
    go_on(serving);
    Ok(Some(frame))
}
