//! What the options of each command say.

ghost use Rattle.std.specs.Prelude.{◌≡◌, ◌≤◌, IfSome, option_map};
ghost use Rattle.saw_top.specs.Command.{Check, apply_by, asked_by, check_by, common_by, events_by, generate_by, hex_in, known_in, prove_by, publish_by, receipts_by, state_by, status_by};
ghost use Rattle.saw_top.specs.Listening.{listening_in};
ghost use Rattle.saw_top.specs.Opening.{listening_by};
ghost use Rattle.saw_top.specs.Plans.{IsSmall, asked_said, known_ids, plan_wish};
ghost use Rattle.saw_top.specs.declared.said.Said.TheVariants.{Judge};

use crate::given::Given;
use crate::listening::Listening;
use crate::numbers::{conflicts_in, required, workers_in};
use crate::said::{Claim, Plan, Said, Wanted};
use crate::table::Kind;
use saw_address::{Address, Prefix, is_hex_text};
use saw_generate::GenerateWish;
use saw_node::NodeHash;
use saw_words::number_in;

// Where external processors connect, and how many do: both are given, or neither.
fn listening_in(listen: Option<&str>, remotes: Option<&str>) -> Option<Option<Listening>>
    ensures value { result ≡ listening_in (option_map (λ text. text.now) listen.entry) (option_map (λ text. text.now) remotes.entry) }
    ensures port { IfSome result (λ at. IfSome at (λ at. at.port ≤ 65535)) }
    ensures few { IfSome result (λ at. IfSome at (λ at. at.remotes ≤ 64)) }
{
    match (listen, remotes) {
        (None, None) => Some(None),
        (Some(port), Some(count)) => {
            let port = number_in(1, 65_535, port)?;
            let remotes = number_in(1, 64, count)?;
            Some(Some(Listening { port, remotes }))
        }
        _ => None,
    }
}

/// Where external processors connect.
pub(crate) fn listening_by<'a, G: Given<'a>>(given: &G) -> Option<Option<Listening>>
    ensures value { result ≡ listening_by (G.value given.now) }
    ensures port { IfSome result (λ at. IfSome at (λ at. at.port ≤ 65535)) }
    ensures few { IfSome result (λ at. IfSome at (λ at. at.remotes ≤ 64)) }
{
    listening_in(given.of("--listen"), given.of("--remotes"))
}

// How many workers there are, where all options that commands on blocks have in common are of a form.
fn common_by<'a, G: Given<'a>>(given: &G) -> Option<u64>
    ensures { result ≡ common_by (G.value given.now) }
{
    match listening_by(given) {
        Some(_) => workers_in(given.of("--workers")),
        None => None,
    }
}

/// What the options of `apply` say, of which those of readers are no part.
pub(crate) fn apply_by<'a, G: Given<'a>>(given: &G) -> Option<Plan<'a>>
    ensures { option_map plan_wish result ≡ apply_by (G.value given.now) }
{
    let workers = common_by(given)?;
    Some(Plan {
        workers,
        attest: given.of("--attest"),
        wanted: Wanted::Head,
    })
}

fn state_by<'a, G: Given<'a>>(given: &G) -> Option<Plan<'a>>
    ensures { option_map plan_wish result ≡ state_by (G.value given.now) }
{
    let workers = common_by(given)?;
    let prefix = Prefix::parse(given.of("--prefix").unwrap_or(""))?;
    Some(Plan {
        workers,
        attest: given.of("--attest"),
        wanted: Wanted::Entries { prefix },
    })
}

fn receipts_by<'a, G: Given<'a>>(given: &G) -> Option<Plan<'a>>
    ensures { option_map plan_wish result ≡ receipts_by (G.value given.now) }
{
    let workers = common_by(given)?;
    Some(Plan {
        workers,
        attest: given.of("--attest"),
        wanted: Wanted::Receipts,
    })
}

fn status_by<'a, G: Given<'a>>(given: &G) -> Option<Plan<'a>>
    ensures { option_map plan_wish result ≡ status_by (G.value given.now) }
{
    let workers = common_by(given)?;
    let id = given.of("--batch")?;
    if !is_hex_text(128, id) {
        return None;
    }
    Some(Plan {
        workers,
        attest: given.of("--attest"),
        wanted: Wanted::Batch { id },
    })
}

fn publish_by<'a, G: Given<'a>>(given: &G) -> Option<Plan<'a>>
    ensures { option_map plan_wish result ≡ publish_by (G.value given.now) }
{
    let workers = common_by(given)?;
    let list = given.of("--batches")?;
    Some(Plan {
        workers,
        attest: given.of("--attest"),
        wanted: Wanted::Candidate { list },
    })
}

fn address_in(text: &str) -> Option<Address>
    ensures { result ≡ hex_in 70 text.now }
{
    Address::parse(text)
}

fn prove_by<'a, G: Given<'a>>(given: &G) -> Option<Plan<'a>>
    ensures { option_map plan_wish result ≡ prove_by (G.value given.now) }
{
    let workers = common_by(given)?;
    let at = address_in(given.of("--address")?)?;
    Some(Plan {
        workers,
        attest: given.of("--attest"),
        wanted: Wanted::Proof { at },
    })
}

// The block that is known, if one is named.
fn known_in(id: Option<&str>) -> Option<Option<&str>>
    ensures { option_map known_ids result ≡ known_in (option_map (λ text. text.now) id.entry) }
{
    match id {
        None => Some(None),
        Some(text) => {
            if !is_hex_text(128, text) {
                return None;
            }
            Some(Some(text))
        }
    }
}

fn events_by<'a, G: Given<'a>>(given: &G) -> Option<Plan<'a>>
    ensures { option_map plan_wish result ≡ events_by (G.value given.now) }
{
    let workers = common_by(given)?;
    let event_type = given.of("--type")?;
    let known = known_in(given.of("--from"))?;
    let key = given.of("--key");
    let text = given.of("--value");
    if key.is_some() != text.is_some() {
        return None;
    }
    Some(Plan {
        workers,
        attest: given.of("--attest"),
        wanted: Wanted::Events {
            event_type,
            known,
            key,
            text,
        },
    })
}

fn hash_in(text: &str) -> Option<NodeHash>
    ensures { result ≡ hex_in 64 text.now }
{
    if !is_hex_text(64, text) {
        return None;
    }
    let digits = Prefix::parse(text)?;
    let mut bytes = [0; 32];
    bytes.copy_from_slice(digits.as_slice());
    Some(NodeHash::new(bytes))
}

fn check_by<'a, G: Given<'a>>(given: &G) -> Option<Said<'a>>
    ensures said { option_map asked_said result ≡ option_map Check (check_by (G.value given.now)) }
    ensures sized { IfSome result IsSmall }
{
    let root = hash_in(given.of("--root")?)?;
    let at = address_in(given.of("--address")?)?;
    let proof = given.of("--proof")?;
    Some(Said::Check {
        claim: Claim { root, at },
        proof,
    })
}

fn generate_by<'a, G: Given<'a>>(given: &G) -> Option<GenerateWish>
    ensures wish { result ≡ generate_by (G.value given.now) }
    ensures sized { IfSome result (λ wish. (wish.blocks ≤ 1000) × (wish.batches ≤ 5000)) }
{
    let start = required(0, u64::MAX, given.of("--start"))?;
    let blocks = required(1, 1000, given.of("--blocks"))?;
    let batches = required(1, 5000, given.of("--batches"))?;
    let conflicts = conflicts_in(given.of("--conflicts"))?;
    Some(GenerateWish {
        start,
        blocks: blocks as u32,
        batches: batches as u32,
        conflicts: conflicts as u32,
    })
}

// A command on blocks.
fn job(plan: Option<Plan<'_>>) -> Option<Said<'_>>
    ensures { result ≡ option_map Judge plan.entry }
{
    Some(Said::Judge(plan?))
}

/// What the options of a command say. `None`: they are invalid, or it is no command of a run.
pub(crate) fn said_by<'a, G: Given<'a>>(kind: Kind, given: &G) -> Option<Said<'a>>
    ensures said { option_map asked_said result ≡ asked_by kind (G.value given.now) }
    ensures sized { IfSome result IsSmall }
{
    match kind {
        Kind::Apply => job(apply_by(given)),
        Kind::State => job(state_by(given)),
        Kind::Receipts => job(receipts_by(given)),
        Kind::Status => job(status_by(given)),
        Kind::Publish => job(publish_by(given)),
        Kind::Prove => job(prove_by(given)),
        Kind::Events => job(events_by(given)),
        Kind::Check => check_by(given),
        Kind::Generate => Some(Said::Generate(generate_by(given)?)),
        Kind::Tp => None,
    }
}
