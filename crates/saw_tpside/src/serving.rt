//! How a processor stands on its link.

ghost use Rattle.std.specs.Prelude.{◌≡◌, ◌+◌, true, false, None, nat_lt, length, min};
ghost use Rattle.saw_context.specs.Outcome.{is_request};
ghost use Rattle.saw_faults.specs.Counts.{last_count};
ghost use Rattle.saw_tpside.specs.ProcessorConversation.{starting, limit_at, registers, after_sent};

use saw_link::limit_of;
use saw_messages::{Action, Transcript, Tx};
use saw_station::Offer;
use saw_wire::Items;

/// A transaction that is open, its turns so far, and the action that comes next.
pub struct Open {
    pub tx: Tx,
    pub talk: Transcript,
    pub action: Action,
}

// A call of its own, so that each place where one is dropped is one step of a proof, whatever its action is.
impl Drop for Open {
    fn drop(self) {
        let Open {
            tx: _tx,
            talk: _talk,
            action: _action,
        } = self;
    }
}

impl Open {
    /// Its parts.
    pub(crate) fn parts(self) -> (Tx, Transcript, Action)
        ensures { result ≡ (self.tx, self.talk, self.action) }
    {
        let Open { tx, talk, action } = self;
        (tx, talk, action)
    }
}

/// What the frames so far come to, at the processor's end.
#[derive(Drop)]
pub struct Serving {
    pub offers: Items<Offer>,
    /// The version that is asked for, and that of the link once the first registration was answered.
    pub version: u32,
    /// How many registrations were answered.
    pub registered: usize,
    /// How many transactions were answered.
    pub answered: u64,
    pub current: Option<Open>,
    /// Whether it has sent a frame and waits for the answer.
    pub waits: bool,
}

impl Serving {
    /// Before anything was sent or received.
    pub(crate) fn new(offers: Items<Offer>, version: u32) -> Self
        ensures { result ≡ starting offers version }
    {
        Serving {
            offers,
            version,
            registered: 0,
            answered: 0,
            current: None,
            waits: false,
        }
    }
}

/// How long a frame may be.
pub(crate) fn limit_at(serving: &Serving) -> usize
    ensures { result ≡ limit_at serving.now }
{
    if serving.registered == 0 {
        limit_of(1)
    } else {
        limit_of(serving.version)
    }
}

/// Whether a registration is still to be answered.
pub(crate) fn registers(serving: &Serving) -> bool
    ensures { result ≡ registers serving.now }
{
    serving.registered < serving.offers.len()
}

fn asks(action: &Action) -> bool
    ensures { result ≡ is_request action.now }
{
    match action {
        Action::Get(_) => true,
        Action::Set(_) => true,
        Action::Delete(_) => true,
        Action::AddEvent(_) => true,
        Action::Ok => false,
        Action::Invalid { reason: _ } => false,
    }
}

// It waits for an answer.
fn waiting(serving: Serving) -> Serving
    ensures { result ≡ record serving { waits = true } }
{
    let mut serving = serving;
    serving.waits = true;
    serving
}

// The open transaction is answered.
fn answered(serving: Serving) -> Serving
    ensures { result ≡ record serving { answered = min (serving.answered + 1) last_count; current = None; waits = false } }
{
    let mut serving = serving;
    serving.answered = serving.answered.saturating_add(1);
    serving.current = None;
    serving.waits = false;
    serving
}

/// How it stands once the frame that was due was sent.
pub(crate) fn after_sent(serving: Serving) -> Serving
    ensures { result ≡ after_sent serving }
{
    match &serving.current {
        Some(current) => {
            if asks(&current.action) {
                waiting(serving)
            } else {
                answered(serving)
            }
        }
        None => waiting(serving),
    }
}
