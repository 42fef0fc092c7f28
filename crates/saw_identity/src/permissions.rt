//! The policy of permissions: who may sign batches and transactions, by the policies and roles of the parent's state.

ghost use Rattle.std.specs.Prelude.{◌≡◌, ℕ, None, option_map, string_bytes, IfOk, IfSome, OnOk};
ghost use Rattle.std.specs.BTreeSet.{contains};
ghost use Rattle.std.specs.Cmp.Lexicographic.{slice_cmp};
ghost use Rattle.std.specs.Ordering.{nat_cmp};
ghost use Rattle.saw_address.specs.Maps.{StateMap};
ghost use Rattle.saw_identity.specs.Permissions.{denied_by, for_batches, fault_by};
ghost use Rattle.saw_identity.specs.Standing.{AreKnown, Holds, IsKnown, Tells, answer, family_role, for_all, for_all_batches, for_all_transactions, is_as, own_ruling, tx_fault};

use crate::address::{policy_address, role_address};
use crate::ruling::{
    Ruling, first_of, policy_at, policy_kept, role_kept, ruled, ruling_of, ruling_with,
};
use saw_address::Base;
use saw_checks::PolicyFault;
use saw_messages::{Tx, TxBatch};
use saw_rules::BlockPolicy;
use saw_wire::Text;
use std::alloc::{AllocError, Global};
use std::collections::{BTreeMap, BTreeSet};

/// The role that decides for signers of batches.
const BATCH_SIGNER: &str = "transactor.batch_signer";

/// The role that decides for signers of transactions.
const TRANSACTION_SIGNER: &str = "transactor.transaction_signer";

/// What the role of one family begins with.
const FAMILY_SIGNER: &str = "transactor.transaction_signer.";

/// The role that decides for both.
const TRANSACTOR: &str = "transactor";

/// The policy that decides where no role does.
const DEFAULT: &str = "default";

/// What is known of a family.
struct Known {
    /// The ruling of role 1.
    own: Option<Ruling>,
    /// The signers that were permitted.
    permitted: BTreeSet<Text>,
}

// One step of a proof wherever one ends.
impl Drop for Known {
    fn drop(self) {
        let Known {
            own: _own,
            permitted: _permitted,
        } = self;
    }
}

/// The signer and the family of a transaction.
#[derive(Drop)]
struct Last {
    signer: Text,
    family: Text,
}

/// What is known of a transaction.
#[derive(Drop)]
enum Judged {
    /// The role of its family has not been read.
    Unread,
    Permitted,
    Denied(PolicyFault),
}

/// The policy of the roles and policies in the parent's state. The first role that stands decides for a signer: for a batch
/// `transactor.batch_signer` (3), `transactor` (4) and the policy `default` (5), for a transaction
/// `transactor.transaction_signer.` with its family (1), `transactor.transaction_signer` (2), and then 4 and 5. Where none
/// stands each signer is permitted.
pub struct Permissions {
    /// The ruling of role 3.
    batches: Option<Ruling>,
    /// The ruling of role 2.
    transactions: Option<Ruling>,
    /// The first of 4 and 5 that stands.
    all: Option<Ruling>,
    /// What is known of the families that occurred.
    families: BTreeMap<Text, Known>,
    /// The signers of batches that were permitted.
    batch_signers: BTreeSet<Text>,
    /// The signer and the family that were kept last.
    last: Option<Last>,
}

// One step of a proof wherever one ends.
impl Drop for Permissions {
    fn drop(self) {
        let Permissions {
            batches: _batches,
            transactions: _transactions,
            all: _all,
            families: _families,
            batch_signers: _batch_signers,
            last: _last,
        } = self;
    }
}

/// The name of the role of one family.
fn family_role(alloc: Global, tx: &Tx) -> Result<String, AllocError>
    ensures { IfOk result (λ name. string_bytes name ≡ family_role tx.now.header.family_name) }
{
    let mut name = String::from_str(alloc, FAMILY_SIGNER)?;
    name.push_str(tx.header.family_name.as_str())?;
    Ok(name)
}

/// The answer where the ruling of the family is known.
fn told(found: Option<PolicyFault>) -> Judged
    ensures { result ≡ answer found }
{
    match found {
        Some(fault) => Judged::Denied(fault),
        None => Judged::Permitted,
    }
}

impl Known {
    /// Whether the signer of a transaction was permitted before.
    fn has(&self, tx: &Tx) -> bool
        ensures { result ≡ contains (slice_cmp nat_cmp) self.now.permitted tx.now.header.signer_public_key }
    {
        self.permitted.contains(&tx.header.signer_public_key)
    }

    /// Keeps the signer of a transaction of the family, who is permitted.
    fn add(&mut self, alloc: Global, tx: &Tx) -> Result<(), AllocError>
        ensures ok { OnOk result ((m : StateMap) (t : ℕ) → IsKnown m tx.now.header.family_name self.old → tx_fault m t tx.now ≡ None
            → IsKnown m tx.now.header.family_name self.new) }
    {
        let signer = tx.header.signer_public_key.try_clone(alloc)?;
        self.permitted.insert(signer)?;
        Ok(())
    }
}

/// Keeps the signer of a transaction, who is permitted, where its family is known.
fn add_signer(
    alloc: Global,
    families: &mut BTreeMap<Text, Known>,
    tx: &Tx,
) -> Result<(), AllocError>
    ensures ok { OnOk result ((m : StateMap) (t : ℕ) → AreKnown m families.old.entries → tx_fault m t tx.now ≡ None
        → AreKnown m families.new.entries) }
{
    match families.get_mut(&tx.header.family_name) {
        Some(known) => known.add(alloc, tx),
        None => Ok(()),
    }
}

impl Permissions {
    /// A judgement that has read of no family.
    fn new(
        alloc: Global,
        batches: Option<Ruling>,
        transactions: Option<Ruling>,
        all: Option<Ruling>,
    ) -> Self
        ensures { (m : StateMap) → batches ≡ for_all_batches m → transactions ≡ for_all_transactions m → all ≡ for_all m
            → Holds result m }
    {
        Permissions {
            batches,
            transactions,
            all,
            families: BTreeMap::new(alloc),
            batch_signers: BTreeSet::new(alloc),
            last: None,
        }
    }

    /// What is wrong with the signer of a batch.
    fn batch_fault(&self, signer: &str) -> Result<Option<PolicyFault>, AllocError>
        ensures { (m : StateMap) → Holds self.now m
            → IfOk result (λ found. found ≡ option_map (fault_by None) (denied_by signer.now (for_batches m))) }
    {
        ruled(first_of(&self.batches, &self.all), None, signer)
    }

    /// Keeps the signer of a batch, who is permitted.
    fn permit_batches(&mut self, alloc: Global, signer: &Text) -> Result<(), AllocError>
        ensures ok { OnOk result ((m : StateMap) → Holds self.old m → denied_by signer.now (for_batches m) ≡ None → Holds self.new m) }
    {
        let signer = signer.try_clone(alloc)?;
        self.batch_signers.insert(signer)?;
        Ok(())
    }

    /// Judges the signer of a batch, unless it was permitted before.
    fn judge_batch(
        &mut self,
        alloc: Global,
        signer: &Text,
    ) -> Result<Option<PolicyFault>, AllocError>
        ensures fault { (m : StateMap) → Holds self.old m
            → IfOk result (λ found. found ≡ option_map (fault_by None) (denied_by signer.now (for_batches m))) }
        ensures ok { OnOk result ((m : StateMap) → Holds self.old m → Holds self.new m) }
    {
        if self.batch_signers.contains(signer) {
            return Ok(None);
        }
        if let Some(fault) = self.batch_fault(signer.as_str())? {
            return Ok(Some(fault));
        }
        self.permit_batches(alloc, signer)?;
        Ok(None)
    }

    /// What is wrong with the signer of a transaction, by the ruling of its family.
    fn tx_fault(
        &self,
        own: &Option<Ruling>,
        t: usize,
        tx: &Tx,
    ) -> Result<Option<PolicyFault>, AllocError>
        ensures { (m : StateMap) → Holds self.now m → own.now ≡ own_ruling m tx.now.header.family_name
            → IfOk result (λ found. found ≡ tx_fault m t tx.now) }
    {
        let others = first_of(&self.transactions, &self.all);
        ruled(
            first_of(own, others),
            Some(t),
            tx.header.signer_public_key.as_str(),
        )
    }

    /// Whether the signer and the family are those that were kept last.
    fn is_as_last(&self, tx: &Tx) -> bool
        ensures { result ≡ is_as tx.now self.now.last }
    {
        match &self.last {
            Some(last) => {
                last.signer == tx.header.signer_public_key && last.family == tx.header.family_name
            }
            None => false,
        }
    }

    /// What is known of the family of a transaction.
    fn known_of(&self, tx: &Tx) -> Option<&Known>
        ensures { (m : StateMap) → Holds self.now m → IfSome result (λ known. IsKnown m tx.now.header.family_name known.now) }
    {
        self.families.get(&tx.header.family_name)
    }

    /// Keeps the ruling of the family of a transaction, of which no signer was permitted yet.
    fn keep(&mut self, alloc: Global, tx: &Tx, own: Option<Ruling>) -> Result<(), AllocError>
        ensures ok { OnOk result ((m : StateMap) → Holds self.old m → own ≡ own_ruling m tx.now.header.family_name → Holds self.new m) }
    {
        let family = tx.header.family_name.try_clone(alloc)?;
        let known = Known {
            own,
            permitted: BTreeSet::new(alloc),
        };
        self.families.insert(family, known)?;
        Ok(())
    }

    /// Keeps the signer of a transaction that is permitted, for its family and as the last one.
    fn permit(&mut self, alloc: Global, tx: &Tx) -> Result<(), AllocError>
        ensures ok { OnOk result ((m : StateMap) (t : ℕ) → Holds self.old m → tx_fault m t tx.now ≡ None → Holds self.new m) }
    {
        add_signer(alloc, &mut self.families, tx)?;
        let signer = tx.header.signer_public_key.try_clone(alloc)?;
        let family = tx.header.family_name.try_clone(alloc)?;
        self.last = Some(Last { signer, family });
        Ok(())
    }

    /// Where nothing was found, the transaction is permitted, and its signer is kept.
    fn noted(
        &mut self,
        alloc: Global,
        tx: &Tx,
        found: Option<PolicyFault>,
    ) -> Result<Option<PolicyFault>, AllocError>
        ensures same { IfOk result (λ still. still ≡ found) }
        ensures ok { OnOk result ((m : StateMap) (t : ℕ) → Holds self.old m → found ≡ tx_fault m t tx.now → Holds self.new m) }
    {
        match found {
            Some(fault) => Ok(Some(fault)),
            None => {
                self.permit(alloc, tx)?;
                Ok(None)
            }
        }
    }

    /// Judges the transaction at a place, unless its family has not been read.
    fn judge_known(&mut self, alloc: Global, t: usize, tx: &Tx) -> Result<Judged, AllocError>
        ensures told { (m : StateMap) → Holds self.old m → IfOk result (Tells m t tx.now) }
        ensures ok { OnOk result ((m : StateMap) → Holds self.old m → Holds self.new m) }
    {
        if self.is_as_last(tx) {
            return Ok(Judged::Permitted);
        }
        let Some(known) = self.known_of(tx) else {
            return Ok(Judged::Unread);
        };
        if known.has(tx) {
            return Ok(Judged::Permitted);
        }
        let found = self.tx_fault(&known.own, t, tx)?;
        Ok(told(self.noted(alloc, tx, found)?))
    }

    /// Judges the transaction at a place by the ruling of its family, which is kept.
    fn judge_by(
        &mut self,
        alloc: Global,
        t: usize,
        tx: &Tx,
        own: Option<Ruling>,
    ) -> Result<Option<PolicyFault>, AllocError>
        ensures fault { (m : StateMap) → Holds self.old m → own ≡ own_ruling m tx.now.header.family_name
            → IfOk result (λ found. found ≡ tx_fault m t tx.now) }
        ensures ok { OnOk result ((m : StateMap) → Holds self.old m → own ≡ own_ruling m tx.now.header.family_name → Holds self.new m) }
    {
        let found = self.tx_fault(&own, t, tx)?;
        self.keep(alloc, tx, own)?;
        self.noted(alloc, tx, found)
    }
}

impl BlockPolicy for Permissions {
    ghost use Rattle.saw_identity.specs.Permissions.{fault, end_fault};
    ghost use Rattle.saw_identity.specs.Standing.{Looked, Stands};

    ghost fault = { fault };

    ghost end_fault = { end_fault };

    ghost stands = { Stands };

    ghost looked = { Looked };

    fn begin<B: Base>(alloc: Global, parent: &B, _signer: &str) -> Result<Self, AllocError> {
        let role = role_kept(alloc, BATCH_SIGNER, parent.get(&role_address(BATCH_SIGNER)))?;
        let batches = ruling_of(alloc, 3, &role, parent.get(&policy_at(&role)))?;
        let role = role_kept(
            alloc,
            TRANSACTION_SIGNER,
            parent.get(&role_address(TRANSACTION_SIGNER)),
        )?;
        let transactions = ruling_of(alloc, 2, &role, parent.get(&policy_at(&role)))?;
        let role = role_kept(alloc, TRANSACTOR, parent.get(&role_address(TRANSACTOR)))?;
        let transactor = ruling_of(alloc, 4, &role, parent.get(&policy_at(&role)))?;
        let default = policy_kept(alloc, DEFAULT, parent.get(&policy_address(DEFAULT)))?;
        let all = transactor.or(ruling_with(5, default));
        Ok(Permissions::new(alloc, batches, transactions, all))
    }

    fn look<B: Base>(
        &mut self,
        alloc: Global,
        parent: &B,
        batch: &TxBatch,
    ) -> Result<Option<PolicyFault>, AllocError> {
        if let Some(fault) = self.judge_batch(alloc, &batch.signer)? {
            return Ok(Some(fault));
        }
        let txs = batch.txs.as_slice();
        for (t, tx) in txs.iter().enumerate() {
            match self.judge_known(alloc, t, tx)? {
                Judged::Permitted => {}
                Judged::Denied(fault) => return Ok(Some(fault)),
                Judged::Unread => {
                    let name = family_role(alloc, tx)?;
                    let found = parent.get(&role_address(name.as_str()));
                    let role = role_kept(alloc, name.as_str(), found)?;
                    let own = ruling_of(alloc, 1, &role, parent.get(&policy_at(&role)))?;
                    if let Some(fault) = self.judge_by(alloc, t, tx, own)? {
                        return Ok(Some(fault));
                    }
                }
            }
        }
        Ok(None)
    }

    fn pass(&mut self, _alloc: Global, _batch: &TxBatch) -> Result<(), AllocError> {
        Ok(())
    }

    fn judge_all(&self) -> Result<Option<PolicyFault>, AllocError> {
        Ok(None)
    }

    fn judge<B: Base>(
        alloc: Global,
        parent: &B,
        signer: &str,
        _before: &[TxBatch],
        batch: &TxBatch,
    ) -> Result<Option<PolicyFault>, AllocError> {
        let mut course: Permissions = Permissions::begin(alloc, parent, signer)?;
        course.look(alloc, parent, batch)
    }

    fn judge_end<B: Base>(
        _alloc: Global,
        _parent: &B,
        _batches: &[TxBatch],
    ) -> Result<Option<PolicyFault>, AllocError> {
        Ok(None)
    }
}
