//! Laws of the family's messages: what is written is read back.

ghost use Rattle.saw_settings.specs.ReadBack.{KeptTextIsReadBack, SettingCandidatesAreReadBack, SettingIsReadBack};

/// What is written for a setting and for candidates is read back, and the text that is kept for candidates too.
pub fn settings_are_read_back()
    ensures setting { SettingIsReadBack }
    ensures candidates { SettingCandidatesAreReadBack }
    ensures kept { KeptTextIsReadBack }
{}
