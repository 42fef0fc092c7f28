//! One setting is read: it is asked for, and the reply is read.

ghost use Rattle.std.specs.Prelude.{◌≡◌, IfOk};
ghost use Rattle.saw_settings.specs.Replies.{setting_at, value_at};
ghost use Rattle.saw_settings.specs.Turns.{replies_from, seen};

use crate::entry::value_in;
use crate::key::address_of;
use crate::setting::Setting;
use crate::talk::{Talk, Told};
use saw_wire::Text;
use std::alloc::AllocError;

/// A request was refused, or its reply says something else than was asked.
pub(crate) const REFUSED: u16 = 301;

/// What is kept is no setting, or a threshold or candidates that cannot be read.
pub(crate) const UNREADABLE: u16 = 302;

impl Talk<'_> {
    /// The setting that is kept where the key is.
    pub(crate) fn setting_at(&self, key: &str, at: usize) -> Result<Told<Setting>, AllocError>
        ensures { IfOk result (λ told. seen self.now.turns.now told
            ≡ setting_at key.now (replies_from at self.now.turns.now)) }
    {
        self.message_at(REFUSED, UNREADABLE, address_of(key), at)
    }

    /// The value of a setting, where it has one.
    #[tactic(auto, unfolding(crate::specs::Replies::value_at))]
    pub(crate) fn value_at(&self, key: &str, at: usize) -> Result<Told<Option<Text>>, AllocError>
        ensures { IfOk result (λ told. seen self.now.turns.now told
            ≡ value_at key.now (replies_from at self.now.turns.now)) }
    {
        match self.setting_at(key, at)? {
            Told::Due(action) => Ok(Told::Due(action)),
            Told::Goes(kept, at) => Ok(Told::Goes(
                value_in(self.alloc, key, kept.entries.as_slice())?,
                at,
            )),
        }
    }
}
