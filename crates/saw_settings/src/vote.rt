//! A vote: it is checked and counted.

ghost use Rattle.std.specs.Prelude.{◌≡◌, ◌==◌, ◌<◌, ◌≤◌, ◌||◌, nat_le, get_or, List, length, IfOk, Some};
ghost use Rattle.std.specs.List.{position, remove};
ghost use Rattle.saw_settings.specs.Actions.{accept_number, cast_vote, count_up, count_votes, has_id, has_voted, reject_number, vote_among, vote_for, vote_of, vote_under, with_vote, write};
ghost use Rattle.saw_settings.specs.Keys.{proposals};
ghost use Rattle.saw_settings.specs.Replies.{written_to};
ghost use Rattle.saw_settings.specs.Requests.{then_do};
ghost use Rattle.saw_settings.specs.Turns.{replies_from};
ghost use Rattle.saw_settings.specs.Values.{kept_text};
ghost use Rattle.saw_settings.specs.declared.candidate.SettingCandidate.{SettingCandidate};

use crate::action::Asking;
use crate::candidate::{SettingCandidate, VoteRecord};
use crate::decoding::decode_setting_vote;
use crate::key::{APPROVAL_THRESHOLD, PROPOSALS};
use crate::payload::{SettingProposal, SettingVote};
use crate::proposal::BAD_BODY;
use crate::reading::UNREADABLE;
use crate::talk::Told;
use crate::value::{candidates_of_value, threshold_of};
use saw_messages::Action;
use saw_wire::{Items, MessageFault, Text};
use std::alloc::{AllocError, Global};

/// The number of a vote that accepts.
pub(crate) const ACCEPT: u32 = 1;

/// The number of a vote that rejects.
const REJECT: u32 = 2;

/// The vote neither accepts nor rejects.
const NO_VOTE: u16 = 312;

/// There is no candidate with the id.
const NO_CANDIDATE: u16 = 313;

/// The signer has voted already.
const VOTED: u16 = 314;

/// How many votes have this number.
fn count_votes(vote: u32, votes: &[VoteRecord]) -> usize
    ensures { result ≡ count_votes vote votes.now }
{
    votes.iter().filter(|one| one.vote == vote).count()
}

/// Whether the signer has voted on the candidate.
fn has_voted(signer: &str, candidate: &SettingCandidate) -> bool
    ensures { result ≡ has_voted signer.now candidate.now }
{
    candidate
        .votes
        .as_slice()
        .iter()
        .any(|one| one.public_key.as_str() == signer)
}

/// A vote.
pub(crate) fn vote_of(alloc: Global, signer: &str, vote: u32) -> Result<VoteRecord, AllocError>
    ensures { IfOk result (λ made. made ≡ vote_of signer.now vote) }
{
    Ok(VoteRecord {
        public_key: Text::from_str(alloc, signer)?,
        vote,
    })
}

/// The candidate with one more vote.
fn with_vote(
    alloc: Global,
    signer: &str,
    vote: u32,
    mut candidate: SettingCandidate,
) -> Result<SettingCandidate, AllocError>
    ensures { IfOk result (λ voted. voted ≡ with_vote signer.now vote candidate) }
{
    candidate.votes.push(vote_of(alloc, signer, vote)?)?;
    Ok(candidate)
}

/// Whether enough accept.
fn is_won(threshold: u32, votes: &[VoteRecord]) -> bool
    ensures { result ≡ nat_le threshold (count_votes accept_number votes.now) }
{
    threshold as usize <= count_votes(ACCEPT, votes)
}

/// Whether enough reject, or all have voted.
fn is_lost(key_count: usize, threshold: u32, votes: &[VoteRecord]) -> bool
    ensures { result ≡ (nat_le threshold (count_votes reject_number votes.now)
        || (length votes.now == key_count)) }
{
    threshold as usize <= count_votes(REJECT, votes) || votes.len() == key_count
}

/// The place of the first candidate with the id.
fn place_of(id: &str, candidates: &[SettingCandidate]) -> Option<usize>
    ensures { result ≡ position (has_id id.now) candidates.now }
{
    candidates
        .iter()
        .position(|candidate| candidate.proposal_id.as_str() == id)
}

/// Whether a vote accepts or rejects.
fn is_vote(vote: u32) -> bool
    ensures { result ≡ (vote == accept_number || vote == reject_number) }
{
    vote == ACCEPT || vote == REJECT
}

impl Asking<'_> {
    /// The next action of a vote, for which the candidates are asked.
    #[tactic(auto, unfolding(crate::specs::Actions::cast_vote))]
    pub(crate) fn cast_vote(&self, body: &[u8], at: usize) -> Result<Action, AllocError>
        ensures { IfOk result (λ action. action ≡ cast_vote self.now.keys.now self.now.signer.now body.now
            (replies_from at self.now.talk.turns.now)) }
    {
        let one = match decode_setting_vote(self.talk.alloc, body) {
            Ok(one) => one,
            Err(MessageFault::OutOfMemory) => return Err(AllocError),
            Err(_) => return Ok(Action::invalid(BAD_BODY)),
        };
        if !is_vote(one.vote) {
            return Ok(Action::invalid(NO_VOTE));
        }
        match self.talk.value_at(PROPOSALS, at)? {
            Told::Due(action) => Ok(action),
            Told::Goes(value, at) => self.vote_among(
                &one,
                candidates_of_value(self.talk.alloc, value)?,
                at,
            ),
        }
    }

    /// Votes on the first candidate with the id.
    fn vote_among(
        &self,
        one: &SettingVote,
        candidates: Option<Items<SettingCandidate>>,
        at: usize,
    ) -> Result<Action, AllocError>
        ensures { IfOk result (λ action. action ≡ vote_among self.now.keys.now self.now.signer.now
            one.now.proposal_id one.now.vote (replies_from at self.now.talk.turns.now) candidates) }
    {
        let Some(candidates) = candidates else {
            return Ok(Action::invalid(UNREADABLE));
        };
        match place_of(one.proposal_id.as_str(), candidates.as_slice()) {
            Some(place) => self.vote_for(one.vote, candidates, place, at),
            None => Ok(Action::invalid(NO_CANDIDATE)),
        }
    }

    /// Votes on the candidate at a place, for which the threshold is asked.
    fn vote_for(
        &self,
        vote: u32,
        candidates: Items<SettingCandidate>,
        place: usize,
        at: usize,
    ) -> Result<Action, AllocError>
        requires { place < length candidates }
        ensures { (candidate : SettingCandidate) → candidate ≡ get_or candidates place candidate
            → IfOk result (λ action. action ≡ vote_for self.now.keys.now self.now.signer.now vote candidates
            (replies_from at self.now.talk.turns.now) (Some (place, candidate))) }
    {
        match self.talk.value_at(APPROVAL_THRESHOLD, at)? {
            Told::Due(action) => Ok(action),
            Told::Goes(value, at) => self.vote_under(
                vote,
                candidates,
                place,
                threshold_of(value),
                at,
            ),
        }
    }

    /// Adds the vote to the candidate at a place, unless the signer has voted.
    fn vote_under(
        &self,
        vote: u32,
        candidates: Items<SettingCandidate>,
        place: usize,
        threshold: Option<u32>,
        at: usize,
    ) -> Result<Action, AllocError>
        requires { place < length candidates }
        ensures { (candidate : SettingCandidate) → candidate ≡ get_or candidates place candidate
            → IfOk result (λ action. action ≡ vote_under self.now.keys.now self.now.signer.now vote candidates
            place candidate (replies_from at self.now.talk.turns.now) threshold) }
    {
        let Some(threshold) = threshold else {
            return Ok(Action::invalid(UNREADABLE));
        };
        let mut others = candidates.into_vec();
        let candidate = others.remove(place);
        if has_voted(self.signer, &candidate) {
            return Ok(Action::invalid(VOTED));
        }
        let voted = with_vote(self.talk.alloc, self.signer, vote, candidate)?;
        self.count_up(threshold, others, place, voted, at)
    }

    /// Counts the votes on a candidate that was taken out from its place.
    fn count_up(
        &self,
        threshold: u32,
        mut others: Vec<SettingCandidate>,
        place: usize,
        voted: SettingCandidate,
        at: usize,
    ) -> Result<Action, AllocError>
        requires { place ≤ length others.items }
        ensures { (candidates : List SettingCandidate) → others.items ≡ remove candidates place
            → place < length candidates
            → IfOk result (λ action. action ≡ count_up self.now.keys.now threshold candidates place voted
            (replies_from at self.now.talk.turns.now)) }
    {
        let votes = voted.votes.as_slice();
        if is_won(threshold, votes) {
            return self.carry_out(&voted.proposal, Items::from_vec(others), at);
        }
        if is_lost(self.keys.len(), threshold, votes) {
            return self.talk.keep(Items::from_vec(others), at);
        }
        others.insert(place, voted)?;
        self.talk.keep(Items::from_vec(others), at)
    }

    /// Carries a proposal out, and keeps the other candidates.
    fn carry_out(
        &self,
        proposal: &SettingProposal,
        others: Items<SettingCandidate>,
        at: usize,
    ) -> Result<Action, AllocError>
        ensures { let written = written_to proposal.now.setting proposal.now.value
            (replies_from at self.now.talk.turns.now) in
            IfOk result (λ action. action
            ≡ then_do written (λ nothing rest. write proposals (kept_text others) rest)) }
    {
        let setting = proposal.setting.as_str();
        match self.talk.written_to(setting, proposal.value.as_str(), at)? {
            Told::Due(action) => Ok(action),
            Told::Goes((), at) => self.talk.keep(others, at),
        }
    }
}
