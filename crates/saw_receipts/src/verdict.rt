//! What is said of a block.

ghost use Rattle.std.specs.Prelude.{◌≡◌};
ghost use Rattle.saw_receipts.specs.Numbers.{fault_name, fault_number};
ghost use Rattle.saw_receipts.specs.Verdicts.{is_accepted};

use saw_checks::{PolicyFault, StructureFault};
use saw_messages::Reason;
use saw_node::NodeHash;
use saw_plan::DropCause;
use saw_wire::Text;

/// Why a block is refused: the first of these. Places and indices count from 0.
#[derive(Drop)]
pub enum BlockFault {
    /// Its structure has this fault.
    Structure(StructureFault),
    /// An accepted block has its id.
    Known,
    /// It is a first block, and one was accepted.
    GenesisAgain,
    /// No accepted block has the id of the block before it.
    PreviousUnknown,
    /// It states another number than that behind its parent's.
    BlockNumber { stated: u64, due: u64 },
    /// Its consensus bytes do not begin with `Devmode`, and it is no first block.
    Consensus,
    /// The static rules drop its batch at place `k`.
    Static { k: u32, cause: DropCause },
    /// The policy finds this wrong with its batch at place `k`, or, where `k` is the number of batches, with all of them.
    Policy { k: u32, fault: PolicyFault },
    /// The transaction at `t` of its batch at `k` is the first invalid one.
    BatchInvalid { k: u32, t: u32, reason: Reason },
    /// It states another root than the computed one.
    Root { stated: Text, computed: NodeHash },
}

impl BlockFault {
    /// The number of its test.
    pub fn number(&self) -> u64
        ensures { result ≡ fault_number self.now }
    {
        match self {
            BlockFault::Structure(fault) => fault.number(),
            BlockFault::Known => 8,
            BlockFault::GenesisAgain => 9,
            BlockFault::PreviousUnknown => 10,
            BlockFault::BlockNumber { .. } => 11,
            BlockFault::Consensus => 12,
            BlockFault::Static { .. } => 13,
            BlockFault::Policy { .. } => 16,
            BlockFault::BatchInvalid { .. } => 14,
            BlockFault::Root { .. } => 15,
        }
    }

    /// Its name, as lines tell it.
    pub fn name(&self) -> &'static str
        ensures { result.now ≡ fault_name self.now }
    {
        match self {
            BlockFault::Structure(fault) => fault.name(),
            BlockFault::Known => "Known",
            BlockFault::GenesisAgain => "GenesisAgain",
            BlockFault::PreviousUnknown => "PreviousUnknown",
            BlockFault::BlockNumber { .. } => "BlockNumber",
            BlockFault::Consensus => "Consensus",
            BlockFault::Static { .. } => "Static",
            BlockFault::Policy { .. } => "Policy",
            BlockFault::BatchInvalid { .. } => "BatchInvalid",
            BlockFault::Root { .. } => "Root",
        }
    }
}

/// What is said of a block.
#[derive(Drop)]
pub enum Verdict {
    /// It is accepted, and the new head.
    Committed,
    /// It is accepted, and the head stays.
    Stored,
    Refused { fault: BlockFault },
}

impl Verdict {
    /// Whether the block is accepted.
    pub fn is_accepted(&self) -> bool
        ensures { result ≡ is_accepted self.now }
    {
        match self {
            Verdict::Committed | Verdict::Stored => true,
            Verdict::Refused { fault: _ } => false,
        }
    }
}
