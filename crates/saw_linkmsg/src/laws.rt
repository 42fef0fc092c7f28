//! Laws of messages of the link: what is written is read back.

ghost use Rattle.saw_linkmsg.specs.LinkReadBack.{EnvelopeIsReadBack, TpRegisterRequestIsReadBack, TpRegisterResponseIsReadBack, TpProcessRequestIsReadBack, TpProcessResponseIsReadBack, TpStateEntryIsReadBack, TpStateGetRequestIsReadBack, TpStateGetResponseIsReadBack, TpStateSetRequestIsReadBack, TpStateSetResponseIsReadBack, TpStateDeleteRequestIsReadBack, TpStateDeleteResponseIsReadBack, TpEventAddRequestIsReadBack, TpEventAddResponseIsReadBack};

/// A written envelope is read back.
pub fn envelopes_are_read_back()
    ensures { EnvelopeIsReadBack }
{}

/// A written registration is read back, the answer to it too.
pub fn registrations_are_read_back()
    ensures request { TpRegisterRequestIsReadBack }
    ensures response { TpRegisterResponseIsReadBack }
{}

/// A written transaction is read back, how it ended too.
pub fn processes_are_read_back()
    ensures request { TpProcessRequestIsReadBack }
    ensures response { TpProcessResponseIsReadBack }
{}

/// A written entry is read back, and each request for entries.
pub fn state_requests_are_read_back()
    ensures entry { TpStateEntryIsReadBack }
    ensures get { TpStateGetRequestIsReadBack }
    ensures set { TpStateSetRequestIsReadBack }
    ensures delete { TpStateDeleteRequestIsReadBack }
{}

/// A written answer to each request for entries is read back.
pub fn state_responses_are_read_back()
    ensures get { TpStateGetResponseIsReadBack }
    ensures set { TpStateSetResponseIsReadBack }
    ensures delete { TpStateDeleteResponseIsReadBack }
{}

/// A written request to add an event is read back, the answer to it too.
pub fn events_are_read_back()
    ensures request { TpEventAddRequestIsReadBack }
    ensures response { TpEventAddResponseIsReadBack }
{}
