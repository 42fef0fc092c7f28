//! An external processor, as a station.

ghost use Rattle.std.specs.Prelude.{◌≡◌, ◌↔◌, ◌≤◌, ◌+◌, ◌∷◌, ◌++◌, [], ℕ, List, Option, true, false, Some, None, is_some, min, IfOk, IfErr, IfSome, IfNone, OnOk, OnErr, IsErrOf, IsSome};
ghost use Rattle.saw_context.specs.Outcome.{is_request};
ghost use Rattle.saw_faults.specs.Counts.{Rose, last_count};
ghost use Rattle.saw_messages.specs.Reasons.{has_own_reason};
ghost use Rattle.saw_messages.specs.declared.talk.Turn.{Turn};
ghost use Rattle.saw_station.specs.TalkSteps.{MayFollow, IsOfLast, KeepsStep, IsShort};
ghost use Rattle.saw_link.specs.LinkConversation.{IsSpelled, IsActOf, Closed, Registered};
ghost use Rattle.saw_link.specs.Remotes.{kept_step, IsStep, Stepped, StopsStep, CountsFailure, fault_of, health_of, faults_after, breach_of, Why};
ghost use Rattle.saw_link.specs.Troubles.{StopsClosing, StopsRegistering};
ghost use Rattle.saw_link.specs.declared.remote.Health.TheVariants as healths;

use crate::exchange::Trouble;
use crate::link::Link;
use crate::moves::{begin_after, close_open, go_on, register_all};
use crate::standing::Standing;
use saw_messages::{Action, Transcript, Turn, Tx};
use saw_station::{Offer, Station, StationFault};
use saw_wire::{Bytes, Items};
use std::alloc::Global;
use std::marker::Model;

/// Whether a station may still be used.
#[derive(Clone, Copy, Debug, PartialEq, Eq)]
pub enum Health {
    Sound,
    /// Each further call fails.
    Failed,
    /// Each further call answers want of memory.
    Starved,
}

/// A processor at the other end of a link.
pub struct RemoteStation<L: Link> {
    link: L,
    standing: Standing,
    begun: bool,
    health: Health,
    faults: u64,
    breach: Option<Bytes>,
}

// A call of its own, so that each place where one is dropped is one step of a proof.
impl<L: Link> Drop for RemoteStation<L> {
    fn drop(self) {
        let RemoteStation {
            link: _link,
            standing: _standing,
            begun: _,
            health: _,
            faults: _,
            breach: _breach,
        } = self;
    }
}

impl<L: Link> Model for RemoteStation<L> {
    ghost use Rattle.saw_link.specs.Remotes.{Remote, AgreesWithLink};

    ghost Value = { Remote L };

    ghost view = { λ s. record { link = s.link; standing = s.standing; begun = s.begun; health = s.health; faults = s.faults; breach = s.breach } };

    ghost invariant = { λ s. AgreesWithLink (L.told s.link) s.standing s.begun s.health };
}

// The last of the turns.
fn last_turn(talk: &Transcript) -> Option<&Turn>
    ensures some { IfSome result (λ turn. (front : List Turn) (pushed : Turn) → talk.now.turns ≡ front ++ pushed ∷ [] → turn.now ≡ pushed) }
    ensures any { IfSome result (λ turn. talk.now.turns ≡ [] → ⊥) }
    ensures none { IfNone result (talk.now.turns ≡ []) }
{
    talk.turns.as_slice().last()
}

// The next action after the turns.
fn step_in<L: Link>(
    alloc: Global,
    link: &mut L,
    standing: &mut Standing,
    tx: &Tx,
    talk: &Transcript,
) -> Result<Action, Trouble>
    requires follows { MayFollow (kept_step standing.old.last) tx.now talk.now.turns }
    requires more { standing.old.more ≡ false }
    requires still { standing.old.refused ≡ 0 }
    ensures still { OnOk result ((standing.new.refused ≡ 0) × (standing.new.more ≡ standing.old.more)) }
    ensures stepped { OnOk result (Stepped (L.told link.old) standing.old tx.now talk.now.turns (L.told link.new) standing.new) }
    ensures acts { L.tells ≡ true → OnOk result (IsSpelled (L.told link.old) standing.old → IsActOf L.next standing.new.last) }
    ensures kept { IfOk result (IsStep standing.new.last tx.now talk.now.turns) }
    ensures own { IfOk result (λ action. has_own_reason action ≡ true) }
    ensures short { IfOk result IsShort }
    ensures talking { IfOk result (λ action. is_some standing.new.asked ≡ true → is_request action ≡ true) }
    ensures offers { standing.new.offers ≡ standing.old.offers }
    ensures later { L.faults link.old ≤ L.faults link.new }
    ensures stopped { IfErr result (λ trouble. StopsStep tx.now talk.now.turns trouble (L.told link.old) standing.old (L.told link.new)) }
    ensures early { IsErrOf result Trouble.Early → (link.new ≡ link.old) × (standing.new ≡ standing.old) }
    ensures link { IsErrOf result Trouble.Link → Rose (L.faults link.old) (L.faults link.new) }
{
    match last_turn(talk) {
        None => match begin_after(alloc, link, standing, tx) {
            Ok(action) => Ok(action),
            Err(trouble) => Err(trouble),
        },
        Some(turn) => match go_on(alloc, link, standing, &turn.reply) {
            Ok(action) => Ok(action),
            Err(trouble) => Err(trouble),
        },
    }
}

fn fault_of(trouble: &Trouble) -> StationFault
    ensures { result ≡ fault_of trouble.now }
{
    match trouble {
        Trouble::Early | Trouble::OutOfMemory => StationFault::OutOfMemory,
        Trouble::Link
        | Trouble::TooLong
        | Trouble::Ended
        | Trouble::Broken
        | Trouble::Breach(_)
        | Trouble::Exhausted
        | Trouble::Closed => StationFault::PeerFailed,
    }
}

// The frame that was not legal.
fn breach_of(trouble: Trouble) -> Option<Bytes>
    ensures { result ≡ breach_of trouble }
{
    match trouble {
        Trouble::Breach(frame) => Some(frame),
        Trouble::Link
        | Trouble::TooLong
        | Trouble::Ended
        | Trouble::Broken
        | Trouble::Exhausted
        | Trouble::Early
        | Trouble::Closed
        | Trouble::OutOfMemory => None,
    }
}

fn is_early(trouble: &Trouble) -> bool
    ensures { (result ≡ true) ↔ (trouble.now ≡ Trouble.Early) }
{
    matches!(trouble, Trouble::Early)
}

// What a trouble leaves of the station: all of it, where nothing was sent or received.
fn settle(
    health: &mut Health,
    faults: &mut u64,
    breach: &mut Option<Bytes>,
    trouble: Trouble,
) -> StationFault
    ensures fault { result ≡ fault_of trouble }
    ensures faults { faults.new ≡ faults_after faults.old result }
    ensures early { trouble ≡ Trouble.Early → (health.new ≡ health.old) × (breach.new ≡ breach.old) }
    ensures leaves { (trouble ≡ Trouble.Early → ⊥) → (health.new ≡ health_of result) × (breach.new ≡ breach_of trouble) }
{
    let fault = fault_of(&trouble);
    if is_early(&trouble) {
        return fault;
    }
    *breach = breach_of(trouble);
    match fault {
        StationFault::PeerFailed => fail(health, faults),
        StationFault::OutOfMemory => {
            *health = Health::Starved;
            fault
        }
    }
}

fn fail(health: &mut Health, faults: &mut u64) -> StationFault
    ensures fault { result ≡ StationFault.PeerFailed }
    ensures health { health.new ≡ healths.Failed }
    ensures faults { faults.new ≡ min (faults.old + 1) last_count }
{
    *health = Health::Failed;
    *faults = faults.saturating_add(1);
    StationFault::PeerFailed
}

impl<L: Link> RemoteStation<L> {
    ghost use Rattle.saw_link.specs.LinkConversation.{fresh};

    /// The station of a link over which nothing passed yet. It has not begun.
    pub fn new(alloc: Global, link: L) -> Self
        requires { IfSome (L.told link) (λ passed. passed ≡ []) }
        ensures { result ≡ record { link = link; standing = fresh; begun = false; health = healths.Sound; faults = 0; breach = None } }
    {
        RemoteStation {
            link,
            standing: Standing::new(alloc),
            begun: false,
            health: Health::Sound,
            faults: 0,
            breach: None,
        }
    }

    /// Whether it may still be used: what its link tells spells how it stands then.
    pub fn is_sound(&self) -> bool
        ensures sound { (result ≡ true) ↔ (self.now.health ≡ healths.Sound) }
        ensures spelled { result ≡ true → IsSpelled (L.told self.now.link) self.now.standing }
    {
        match self.health {
            Health::Sound => true,
            Health::Failed => false,
            Health::Starved => false,
        }
    }

    /// The link.
    pub fn link(&self) -> &L
        ensures { result.now ≡ self.now.link }
    {
        &self.link
    }

    /// Gives back the link.
    pub fn into_link(self) -> L
        ensures { result ≡ self.link }
    {
        let RemoteStation {
            link,
            standing: _standing,
            begun: _,
            health: _,
            faults: _,
            breach: _breach,
        } = self;
        link
    }

    /// The frame that was not legal.
    pub fn breach(&self) -> Option<&[u8]>
        ensures some { IfSome result (λ frame. self.now.breach ≡ Some frame.now) }
        ensures none { IfNone result (self.now.breach ≡ None) }
    {
        match &self.breach {
            Some(frame) => Some(frame.as_slice()),
            None => None,
        }
    }
}

impl<L: Link + Send> Station for RemoteStation<L> {
    ghost next = { L.next };

    ghost tells = { L.tells };

    ghost faults = { λ s. s.faults };

    ghost begun = { λ s. s.begun };

    ghost last = { λ s. kept_step s.standing.last };

    ghost talking = { λ s. is_some s.standing.asked };

    ghost offered = { λ s. s.standing.offers };

    ghost own_reasons = { λ tx turns. L.own_reasons tx turns };

    fn begin(&mut self, alloc: Global) -> Result<(), StationFault>
        requires { self.old.begun ≡ false }
        ensures ok { OnOk result (self.new.begun ≡ true) }
        ensures unbegun { OnErr result (self.new.begun ≡ false) }
        ensures closed { OnOk result (is_some self.new.standing.asked ≡ false) }
        ensures registered { OnOk result (Registered (L.told self.old.link) self.old.standing (L.told self.new.link) self.new.standing) }
        ensures why { self.old.health ≡ healths.Sound → IfErr result (λ fault. Why L.told L.faults StopsRegistering self.old self.new fault) }
        ensures sound { OnOk result ((self.old.health ≡ healths.Sound) × (self.new.health ≡ healths.Sound)) }
        ensures goes_on { IfErr result (λ fault. CountsFailure self.old.health self.new.health fault self.old.faults self.new.faults) }
        ensures quiet { OnOk result ((self.new.faults ≡ self.old.faults) × (self.new.breach ≡ self.old.breach)) }
        ensures left { (self.old.health ≡ healths.Sound → ⊥) → (self.new.link ≡ self.old.link) × (self.new.breach ≡ self.old.breach) }
        ensures later { self.old.faults ≤ self.new.faults }
        ensures cause { IsErrOf result StationFault.PeerFailed → Rose self.old.faults self.new.faults }
    {
        match self.health {
            Health::Failed => return Err(fail(&mut self.health, &mut self.faults)),
            Health::Starved => return Err(StationFault::OutOfMemory),
            Health::Sound => {}
        }
        match register_all(alloc, &mut self.link, &mut self.standing) {
            Ok(()) => {
                self.begun = true;
                Ok(())
            }
            Err(trouble) => Err(settle(
                &mut self.health,
                &mut self.faults,
                &mut self.breach,
                trouble,
            )),
        }
    }

    fn offers(&self) -> &[Offer] {
        self.standing.offers.as_slice()
    }

    fn step(&mut self, alloc: Global, tx: &Tx, talk: &Transcript) -> Result<Action, StationFault>
        requires begun { self.old.begun ≡ true }
        requires follows { MayFollow (kept_step self.old.standing.last) tx.now talk.now.turns }
        ensures told { L.tells ≡ true → IfOk result (λ action. action ≡ L.next tx.now talk.now.turns) }
        ensures stepped { OnOk result (Stepped (L.told self.old.link) self.old.standing tx.now talk.now.turns (L.told self.new.link) self.new.standing) }
        ensures kept { IfOk result (IsStep self.new.standing.last tx.now talk.now.turns) }
        ensures why { self.old.health ≡ healths.Sound → IfErr result (λ fault. Why L.told L.faults (StopsStep tx.now talk.now.turns) self.old self.new fault) }
        ensures sound { OnOk result ((self.old.health ≡ healths.Sound) × (self.new.health ≡ healths.Sound)) }
        ensures goes_on { IfErr result (λ fault. CountsFailure self.old.health self.new.health fault self.old.faults self.new.faults) }
        ensures reason { IfOk result (λ action. has_own_reason action ≡ true) }
        ensures short { IfOk result IsShort }
        ensures keeps { IfOk result (KeepsStep (kept_step self.new.standing.last) tx.now talk.now.turns) }
        ensures talking { IfOk result (λ action. is_some self.new.standing.asked ≡ true → is_request action ≡ true) }
        ensures begun { self.new.begun ≡ true }
        ensures offers { self.new.standing.offers ≡ self.old.standing.offers }
        ensures quiet { OnOk result ((self.new.faults ≡ self.old.faults) × (self.new.breach ≡ self.old.breach)) }
        ensures left { (self.old.health ≡ healths.Sound → ⊥) → (self.new.link ≡ self.old.link) × (self.new.breach ≡ self.old.breach) }
        ensures later { self.old.faults ≤ self.new.faults }
        ensures cause { IsErrOf result StationFault.PeerFailed → Rose self.old.faults self.new.faults }
    {
        match self.health {
            Health::Failed => return Err(fail(&mut self.health, &mut self.faults)),
            Health::Starved => return Err(StationFault::OutOfMemory),
            Health::Sound => {}
        }
        match step_in(alloc, &mut self.link, &mut self.standing, tx, talk) {
            Ok(action) => Ok(action),
            Err(trouble) => Err(settle(
                &mut self.health,
                &mut self.faults,
                &mut self.breach,
                trouble,
            )),
        }
    }

    fn close(&mut self, alloc: Global, _tx: &Tx, _talk: &Transcript) -> Result<(), StationFault>
        requires begun { self.old.begun ≡ true }
        requires last { IsOfLast (kept_step self.old.standing.last) _tx.now _talk.now.turns }
        ensures closed { OnOk result (is_some self.new.standing.asked ≡ false) }
        ensures refused { OnOk result (Closed (L.told self.old.link) self.old.standing (L.told self.new.link) self.new.standing) }
        ensures why { self.old.health ≡ healths.Sound → IfErr result (λ fault. Why L.told L.faults StopsClosing self.old self.new fault) }
        ensures sound { OnOk result ((self.old.health ≡ healths.Sound) × (self.new.health ≡ healths.Sound)) }
        ensures goes_on { IfErr result (λ fault. CountsFailure self.old.health self.new.health fault self.old.faults self.new.faults) }
        ensures begun { self.new.begun ≡ true }
        ensures offers { self.new.standing.offers ≡ self.old.standing.offers }
        ensures quiet { OnOk result ((self.new.faults ≡ self.old.faults) × (self.new.breach ≡ self.old.breach)) }
        ensures left { (self.old.health ≡ healths.Sound → ⊥) → (self.new.link ≡ self.old.link) × (self.new.breach ≡ self.old.breach) }
        ensures later { self.old.faults ≤ self.new.faults }
        ensures cause { IsErrOf result StationFault.PeerFailed → Rose self.old.faults self.new.faults }
    {
        match self.health {
            Health::Failed => return Err(fail(&mut self.health, &mut self.faults)),
            Health::Starved => return Err(StationFault::OutOfMemory),
            Health::Sound => {}
        }
        match close_open(alloc, &mut self.link, &mut self.standing) {
            Ok(()) => Ok(()),
            Err(trouble) => Err(settle(
                &mut self.health,
                &mut self.faults,
                &mut self.breach,
                trouble,
            )),
        }
    }
}
