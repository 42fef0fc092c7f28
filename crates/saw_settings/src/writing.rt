//! One setting is written: it is read again and set, and an event tells of it.

ghost use Rattle.std.specs.Prelude.{◌≡◌, IfOk};
ghost use Rattle.saw_settings.specs.Actions.{write};
ghost use Rattle.saw_settings.specs.Keys.{proposals, with_value};
ghost use Rattle.saw_settings.specs.Replies.{set_to, told_of, written_to};
ghost use Rattle.saw_settings.specs.Requests.{done};
ghost use Rattle.saw_settings.specs.Turns.{replies_from, seen};
ghost use Rattle.saw_settings.specs.Values.{kept_text};

use crate::candidate::SettingCandidate;
use crate::encoding::encode_setting;
use crate::entry::with_value;
use crate::key::{PROPOSALS, address_of};
use crate::reading::REFUSED;
use crate::setting::{Setting, SettingEntry};
use crate::talk::{Talk, Told, update_of};
use crate::value::kept_text;
use saw_messages::Action;
use saw_wire::{Bytes, Items};
use std::alloc::{AllocError, Global};

/// The type of the event of a change.
const UPDATE: &str = "settings/update";

/// The change that keeps the entries where the key is.
fn set_to(alloc: Global, key: &str, entries: Items<SettingEntry>) -> Result<Action, AllocError>
    ensures { IfOk result (λ action. action ≡ set_to key.now entries) }
{
    let body = encode_setting(alloc, &Setting { entries })?;
    Action::set(alloc, address_of(key), Bytes::from_vec(body))
}

impl Talk<'_> {
    /// The entries with the value are set.
    fn put(
        &self,
        key: &str,
        value: &str,
        entries: Items<SettingEntry>,
        at: usize,
    ) -> Result<Told<()>, AllocError>
        ensures { IfOk result (λ told. seen self.now.turns.now told
            ≡ done 301 (set_to key.now (with_value key.now value.now entries))
            (replies_from at self.now.turns.now)) }
    {
        match self.done_at(REFUSED, at) {
            Some(told) => Ok(told),
            None => {
                let entries = with_value(self.alloc, key, value, entries)?;
                Ok(Told::Due(set_to(self.alloc, key, entries)?))
            }
        }
    }

    /// An event tells of the change, unless it is one of the list of proposals.
    fn announce(&self, key: &str, at: usize) -> Result<Told<()>, AllocError>
        ensures { IfOk result (λ told. seen self.now.turns.now told
            ≡ told_of key.now (replies_from at self.now.turns.now)) }
    {
        if key == PROPOSALS {
            return Ok(Told::Goes((), at));
        }
        match self.done_at(REFUSED, at) {
            Some(told) => Ok(told),
            None => Ok(Told::Due(Action::AddEvent(update_of(self.alloc, UPDATE, key)?))),
        }
    }

    /// The setting has the value.
    #[tactic(auto, unfolding(crate::specs::Replies::written_to))]
    pub(crate) fn written_to(
        &self,
        key: &str,
        value: &str,
        at: usize,
    ) -> Result<Told<()>, AllocError>
        ensures { IfOk result (λ told. seen self.now.turns.now told
            ≡ written_to key.now value.now (replies_from at self.now.turns.now)) }
    {
        let (kept, at) = match self.setting_at(key, at)? {
            Told::Due(action) => return Ok(Told::Due(action)),
            Told::Goes(kept, at) => (kept, at),
        };
        match self.put(key, value, kept.entries, at)? {
            Told::Due(action) => Ok(Told::Due(action)),
            Told::Goes((), at) => self.announce(key, at),
        }
    }

    /// The setting gets the value, and then the transaction is valid.
    pub(crate) fn write(&self, key: &str, value: &str, at: usize) -> Result<Action, AllocError>
        ensures { IfOk result (λ action. action
            ≡ write key.now value.now (replies_from at self.now.turns.now)) }
    {
        match self.written_to(key, value, at)? {
            Told::Due(action) => Ok(action),
            Told::Goes((), _) => Ok(Action::Ok),
        }
    }

    /// The candidates are kept, and then the transaction is valid.
    pub(crate) fn keep(
        &self,
        candidates: Items<SettingCandidate>,
        at: usize,
    ) -> Result<Action, AllocError>
        ensures { IfOk result (λ action. action
            ≡ write proposals (kept_text candidates) (replies_from at self.now.turns.now)) }
    {
        let text = kept_text(self.alloc, candidates)?;
        self.write(PROPOSALS, text.as_str(), at)
    }
}
