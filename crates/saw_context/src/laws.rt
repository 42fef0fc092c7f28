//! Laws of transactions, whatever their processors.

ghost use Rattle.saw_context.specs.Lanes.{LanesAreSerial};
ghost use Rattle.saw_context.specs.Laws.{OverShows, GatheredChangesShow, OutcomeSeesInputs, WritesAreCovered, ConversationIsNotEarly, SoundIsOutcome, SeenIsOver};
ghost use Rattle.saw_context.specs.Laws.{MayComeIsTold, SoundMayCome, TellingDecides, SerialMayCome, AccessIsKept, AddressesAreKept};

/// What a map has with a view on top.
pub fn over_shows()
    ensures { OverShows }
{}

/// The outcome depends only on what the map has at addresses that the inputs cover.
pub fn outcome_sees_inputs()
    ensures { OutcomeSeesInputs }
{}

/// A transaction writes only addresses that its outputs cover.
pub fn writes_are_covered()
    ensures { WritesAreCovered }
{}

/// No reason that comes before a conversation comes out of one.
pub fn conversation_is_not_early()
    ensures { ConversationIsNotEarly }
{}

/// A true result whose recorded reads are what a map gives has the outcome over that map.
pub fn sound_is_outcome()
    ensures { SoundIsOutcome }
{}

/// Reads that agree with a view and its base are what the base gives with the view on top.
pub fn seen_is_over()
    ensures { SeenIsOver }
{}

/// Gathered changes leave what they leave one after another.
pub fn gathered_changes_show()
    ensures { GatheredChangesShow }
{}

/// Of a transaction whose processor is told, its outcome alone may come.
pub fn may_come_is_told()
    ensures { MayComeIsTold }
{}

/// A true result whose recorded reads are what a map gives may come over that map.
pub fn sound_may_come()
    ensures { SoundMayCome }
{}

/// Where each transaction's processor is told, the serial results alone may come.
pub fn telling_decides()
    ensures { TellingDecides }
{}

/// The serial results may come.
pub fn serial_may_come()
    ensures { SerialMayCome }
{}

/// Whatever processors answer, what may come of a transaction keeps to what it declares.
pub fn access_is_kept()
    ensures { AccessIsKept }
{}

/// Whatever processors answer, a state that has entries at addresses alone is left with such.
pub fn addresses_are_kept()
    ensures { AddressesAreKept }
{}

/// Batches in lanes that declare no address in common may come to what each lane alone may come to.
pub fn lanes_are_serial()
    ensures { LanesAreSerial }
{}
