//! The commands: one table.

ghost use Rattle.std.specs.Prelude.{◌≡◌, map};
ghost use Rattle.saw_top.specs.Table.{kind_of, name_of, options_of};

/// A command.
#[derive(Clone, Copy, Debug, PartialEq, Eq)]
pub enum Kind {
    Apply,
    State,
    Receipts,
    Status,
    Publish,
    Prove,
    Events,
    Check,
    Generate,
    Tp,
}

/// The commands, in the order in which they are told.
pub const KINDS: [Kind; 10] = [
    Kind::Apply,
    Kind::State,
    Kind::Receipts,
    Kind::Status,
    Kind::Publish,
    Kind::Prove,
    Kind::Events,
    Kind::Check,
    Kind::Generate,
    Kind::Tp,
];

/// The options of `apply` beside readers, each at most once and in any order.
pub(crate) const LIVE_OPTIONS: [&str; 4] = ["--workers", "--attest", "--live", "--readers"];

impl Kind {
    /// Its name.
    pub fn name(self) -> &'static str
        ensures { result.now ≡ name_of self }
    {
        match self {
            Kind::Apply => "apply",
            Kind::State => "state",
            Kind::Receipts => "receipts",
            Kind::Status => "status",
            Kind::Publish => "publish",
            Kind::Prove => "prove",
            Kind::Events => "events",
            Kind::Check => "check",
            Kind::Generate => "generate",
            Kind::Tp => "tp",
        }
    }

    /// The options that it takes, each at most once and in any order.
    pub fn options(self) -> &'static [&'static str]
        ensures { map (λ name. name.now) result.now ≡ options_of self }
    {
        match self {
            Kind::Apply => &["--workers", "--attest", "--listen", "--remotes"],
            Kind::State => &["--workers", "--attest", "--listen", "--remotes", "--prefix"],
            Kind::Receipts => &["--workers", "--attest", "--listen", "--remotes"],
            Kind::Status => &["--workers", "--attest", "--listen", "--remotes", "--batch"],
            Kind::Publish => &[
                "--workers",
                "--attest",
                "--listen",
                "--remotes",
                "--batches",
            ],
            Kind::Prove => &[
                "--workers",
                "--attest",
                "--listen",
                "--remotes",
                "--address",
            ],
            Kind::Events => &[
                "--workers",
                "--attest",
                "--listen",
                "--remotes",
                "--type",
                "--from",
                "--key",
                "--value",
            ],
            Kind::Check => &["--root", "--address", "--proof"],
            Kind::Generate => &["--start", "--blocks", "--batches", "--conflicts"],
            Kind::Tp => &["--connect"],
        }
    }

    /// What it does, and its options, of which COMMON stands for those of each command on blocks.
    pub fn about(self) -> &'static str {
        match self {
            Kind::Apply =>
                "Judge each block of the stream, and write a line for each [--live, --readers, COMMON]",
            Kind::State => "List the entries of the head's state [--prefix, COMMON]",
            Kind::Receipts => "List the receipts of the head's branch [COMMON]",
            Kind::Status => "Tell which block of the head's branch holds a batch [--batch, COMMON]",
            Kind::Publish => "Make the next block of a list of batches [--batches, COMMON]",
            Kind::Prove => "Prove what the head's state has at an address [--address, COMMON]",
            Kind::Events =>
                "Tell the events of the head's branch [--type, --from, --key, --value, COMMON]",
            Kind::Check =>
                "Check a proof against a root, without a stream [--root, --address, --proof]",
            Kind::Generate =>
                "Make a stream of blocks to try [--start, --blocks, --batches, --conflicts]",
            Kind::Tp =>
                "Serve transactions of the built-in families to a program that listens [--connect]",
        }
    }
}

/// The command of this name.
pub(crate) fn kind_of(word: &str) -> Option<Kind>
    ensures { result ≡ kind_of word.now }
{
    KINDS.iter().copied().find(|kind| kind.name() == word)
}
