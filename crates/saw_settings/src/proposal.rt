//! A proposal: it is checked, and carried out at once or put to the vote.

ghost use Rattle.std.specs.Prelude.{◌≡◌, IfOk, Some};
ghost use Rattle.std.specs.List.{list_any};
ghost use Rattle.saw_settings.specs.Actions.{add_to, has_id, has_none, id_of, is_reachable, new_candidate, proposal_fault, propose, propose_under, put_to_vote};
ghost use Rattle.saw_settings.specs.Turns.{replies_from};
ghost use Rattle.saw_settings.specs.Values.{candidates_of_value, keys_in, number_in};

use crate::action::Asking;
use crate::candidate::SettingCandidate;
use crate::decoding::decode_setting_proposal;
use crate::key::{APPROVAL_THRESHOLD, AUTHORIZED_KEYS, PROPOSALS};
use crate::payload::SettingProposal;
use crate::reading::UNREADABLE;
use crate::talk::Told;
use crate::value::{candidates_of_value, keys_in, number_in, threshold_of};
use crate::vote::{ACCEPT, vote_of};
use saw_messages::Action;
use saw_wire::{Bytes, Items, MessageFault, Text};
use sha2::{Digest, Sha256};
use std::alloc::{AllocError, Global};

/// The body is no proposal, or no vote.
pub(crate) const BAD_BODY: u16 = 306;

/// Keys come before all other settings.
const KEYS_FIRST: u16 = 307;

/// The keys are not taken away.
const KEYS_REMOVED: u16 = 308;

/// The keys cannot reach the threshold.
const OUT_OF_REACH: u16 = 309;

/// Proposals are not proposed.
const PROPOSES_PROPOSALS: u16 = 310;

/// There is a candidate with the id already.
const KNOWN: u16 = 311;

/// The id of a proposal: the hex digits of SHA-256 of its bytes.
fn id_of(alloc: Global, body: &[u8]) -> Result<Text, AllocError>
    ensures { IfOk result (λ id. id ≡ id_of body.now) }
{
    let digest = Sha256::digest(body);
    Ok(Text::from_string(hex::encode(alloc, digest.as_slice())?))
}

/// A candidate that its proposer accepts.
fn new_candidate(
    alloc: Global,
    signer: &str,
    id: Text,
    proposal: SettingProposal,
) -> Result<SettingCandidate, AllocError>
    ensures { IfOk result (λ made. made ≡ new_candidate signer.now id proposal) }
{
    let mut votes = Items::new(alloc);
    votes.push(vote_of(alloc, signer, ACCEPT)?)?;
    Ok(SettingCandidate {
        proposal_id: id,
        proposal,
        votes,
    })
}

/// Whether there is a candidate with the id.
fn is_known(id: &str, candidates: &[SettingCandidate]) -> bool
    ensures { result ≡ list_any (has_id id.now) candidates.now }
{
    candidates
        .iter()
        .any(|candidate| candidate.proposal_id.as_str() == id)
}

/// Whether a value of the keys names none.
fn names_no_keys(alloc: Global, text: &str) -> Result<bool, AllocError>
    ensures { IfOk result (λ none. none ≡ has_none (keys_in text.now)) }
{
    Ok(keys_in(alloc, text)?.is_empty())
}

/// Whether a threshold can be read, and so many keys can reach it.
fn is_reachable(count: usize, text: &str) -> bool
    ensures { result ≡ is_reachable count (number_in text.now) }
{
    match number_in(text) {
        Some(number) => number as usize <= count,
        None => false,
    }
}

/// The number of the first check that fails.
fn proposal_fault(
    alloc: Global,
    keys: &[Bytes],
    proposal: &SettingProposal,
) -> Result<Option<u16>, AllocError>
    ensures { IfOk result (λ fault. fault ≡ proposal_fault keys.now proposal.now) }
{
    let setting = proposal.setting.as_str();
    let value = proposal.value.as_str();
    if keys.is_empty() && setting != AUTHORIZED_KEYS {
        return Ok(Some(KEYS_FIRST));
    }
    if setting == AUTHORIZED_KEYS && names_no_keys(alloc, value)? {
        return Ok(Some(KEYS_REMOVED));
    }
    if setting == APPROVAL_THRESHOLD && !is_reachable(keys.len(), value) {
        return Ok(Some(OUT_OF_REACH));
    }
    if setting == PROPOSALS {
        return Ok(Some(PROPOSES_PROPOSALS));
    }
    Ok(None)
}

impl Asking<'_> {
    /// The next action of a proposal, for which the threshold is asked.
    #[tactic(auto, unfolding(crate::specs::Actions::propose))]
    pub(crate) fn propose(&self, body: &[u8], at: usize) -> Result<Action, AllocError>
        ensures { IfOk result (λ action. action ≡ propose self.now.keys.now self.now.signer.now body.now
            (replies_from at self.now.talk.turns.now)) }
    {
        let proposal = match decode_setting_proposal(self.talk.alloc, body) {
            Ok(proposal) => proposal,
            Err(MessageFault::OutOfMemory) => return Err(AllocError),
            Err(_) => return Ok(Action::invalid(BAD_BODY)),
        };
        match self.talk.value_at(APPROVAL_THRESHOLD, at)? {
            Told::Due(action) => Ok(action),
            Told::Goes(value, at) => self.propose_under(body, proposal, threshold_of(value), at),
        }
    }

    /// Checks a proposal. At most one vote decides at once.
    fn propose_under(
        &self,
        body: &[u8],
        proposal: SettingProposal,
        threshold: Option<u32>,
        at: usize,
    ) -> Result<Action, AllocError>
        ensures { IfOk result (λ action. action ≡ propose_under self.now.keys.now self.now.signer.now
            (id_of body.now) proposal (replies_from at self.now.talk.turns.now) threshold) }
    {
        let Some(threshold) = threshold else {
            return Ok(Action::invalid(UNREADABLE));
        };
        if let Some(number) = proposal_fault(self.talk.alloc, self.keys, &proposal)? {
            return Ok(Action::invalid(number));
        }
        if threshold <= 1 {
            let setting = proposal.setting.as_str();
            self.talk.write(setting, proposal.value.as_str(), at)
        } else {
            self.put_to_vote(body, proposal, at)
        }
    }

    /// Adds the proposal to those that are voted on, for which these are asked.
    fn put_to_vote(
        &self,
        body: &[u8],
        proposal: SettingProposal,
        at: usize,
    ) -> Result<Action, AllocError>
        ensures { IfOk result (λ action. action ≡ put_to_vote self.now.signer.now (id_of body.now) proposal
            (replies_from at self.now.talk.turns.now)) }
    {
        match self.talk.value_at(PROPOSALS, at)? {
            Told::Due(action) => Ok(action),
            Told::Goes(value, at) => self.add_to(body, proposal, value, at),
        }
    }

    /// Adds the proposal to the candidates that a value says, unless there is one with its id.
    fn add_to(
        &self,
        body: &[u8],
        proposal: SettingProposal,
        value: Option<Text>,
        at: usize,
    ) -> Result<Action, AllocError>
        ensures { IfOk result (λ action. action ≡ add_to self.now.signer.now (id_of body.now) proposal
            (replies_from at self.now.talk.turns.now) (candidates_of_value value)) }
    {
        match candidates_of_value(self.talk.alloc, value)? {
            Some(candidates) => self.add_new(body, proposal, candidates, at),
            None => Ok(Action::invalid(UNREADABLE)),
        }
    }

    /// Adds the proposal to these candidates, unless there is one with its id.
    fn add_new(
        &self,
        body: &[u8],
        proposal: SettingProposal,
        mut candidates: Items<SettingCandidate>,
        at: usize,
    ) -> Result<Action, AllocError>
        ensures { IfOk result (λ action. action ≡ add_to self.now.signer.now (id_of body.now) proposal
            (replies_from at self.now.talk.turns.now) (Some candidates)) }
    {
        let id = id_of(self.talk.alloc, body)?;
        if is_known(id.as_str(), candidates.as_slice()) {
            return Ok(Action::invalid(KNOWN));
        }
        candidates.push(new_candidate(self.talk.alloc, self.signer, id, proposal)?)?;
        self.talk.keep(candidates, at)
    }
}
