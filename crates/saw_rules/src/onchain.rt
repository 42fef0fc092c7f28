//! The policy of the settings on families and on blocks.

ghost use Rattle.std.specs.Prelude.{◌≡◌, ◌++◌, ◌∷◌, [], List, ℕ, map, option_copied, true, IfOk, OnOk};
ghost use Rattle.std.specs.Arc.{arc_value};
ghost use Rattle.saw_address.specs.Maps.{StateMap, value_at};
ghost use Rattle.saw_settings.specs.Keys.{address_of};
ghost use Rattle.saw_messages.specs.TxShapes.{BatchShape, TxShape};
ghost use Rattle.saw_rules.specs.OnChainRules.{allowed, families_key, fault, listed, rules_in, rules_key, txs_in};
ghost use Rattle.saw_rules.specs.Courses.{Looked, Stands, are_alike, count_for};

use crate::counting::{are_alike, counts_behind, no_counts};
use crate::families::{Family, families_of};
use crate::judging::{end_fault, family_fault, rule_fault};
use crate::policy::BlockPolicy;
use crate::rule::{Rule, rules_of};
use saw_address::Base;
use saw_checks::PolicyFault;
use saw_messages::{Tx, TxBatch};
use saw_settings::{address_of, value_by};
use saw_wire::{Items, Text};
use std::alloc::{AllocError, Global};
use std::mem;
use std::sync::Arc;

/// The setting that names the families that are allowed.
const FAMILIES: &str = "sawtooth.validator.transaction_families";

/// The setting that names the rules of a block.
const RULES: &str = "sawtooth.validator.block_validation_rules";

/// The policy of two settings in the parent's state: `sawtooth.validator.transaction_families` and
/// `sawtooth.validator.block_validation_rules`. One that is absent or malformed demands nothing.
pub struct OnChainRules {
    families: Option<Items<Family>>,
    rules: Items<Rule>,
    signer: Text,
    /// The transactions of the batches that passed.
    txs: Vec<Arc<Tx>>,
    /// How many transactions of its family there are, for each rule `NofX`; 0 for another rule.
    counts: Vec<usize>,
    /// The same with the batch that was looked at last.
    next_counts: Vec<usize>,
}

// One step of a proof wherever one ends.
impl Drop for OnChainRules {
    fn drop(self) {
        let OnChainRules {
            families: _families,
            rules: _rules,
            signer: _signer,
            txs: _txs,
            counts: _counts,
            next_counts: _next_counts,
        } = self;
    }
}

/// The families that are allowed, by what the address of their setting has. `None`: that does not say.
fn allowed(alloc: Global, found: Option<&[u8]>) -> Result<Option<Items<Family>>, AllocError>
    ensures { (m : StateMap) → option_copied found.entry ≡ value_at m (address_of families_key)
        → IfOk result (λ families. families ≡ allowed m) }
{
    match value_by(alloc, FAMILIES, found)? {
        Some(text) => families_of(alloc, text.as_str()),
        None => Ok(None),
    }
}

/// The rules that are listed, by what the address of their setting has. `None`: that does not say.
fn listed(alloc: Global, found: Option<&[u8]>) -> Result<Option<Items<Rule>>, AllocError>
    ensures { (m : StateMap) → option_copied found.entry ≡ value_at m (address_of rules_key)
        → IfOk result (λ rules. rules ≡ listed m) }
{
    match value_by(alloc, RULES, found)? {
        Some(text) => rules_of(alloc, text.as_str()),
        None => Ok(None),
    }
}

/// The rules of a block.
fn rules_in(alloc: Global, found: Option<&[u8]>) -> Result<Items<Rule>, AllocError>
    ensures { (m : StateMap) → option_copied found.entry ≡ value_at m (address_of rules_key)
        → IfOk result (λ rules. rules ≡ rules_in m) }
{
    match listed(alloc, found)? {
        Some(rules) => Ok(rules),
        None => Ok(Items::new(alloc)),
    }
}

/// The transactions once more, which are shared and not copied.
fn shared(alloc: Global, txs: &[Arc<Tx>]) -> Result<Vec<Arc<Tx>>, AllocError>
    ensures { IfOk result (λ copies. map arc_value copies.items ≡ map arc_value txs.now) }
{
    let mut copies = Vec::new(alloc);
    for tx in txs {
        copies.push(tx.clone()?)?;
    }
    Ok(copies)
}

impl OnChainRules {
    /// What the addresses of both settings say, behind no batch.
    fn read(
        alloc: Global,
        families: Option<&[u8]>,
        rules: Option<&[u8]>,
        signer: &str,
    ) -> Result<Self, AllocError>
        ensures { (m : StateMap) → option_copied families.entry ≡ value_at m (address_of families_key)
            → option_copied rules.entry ≡ value_at m (address_of rules_key)
            → IfOk result (λ course. Stands course m signer.now []) }
    {
        let rules = rules_in(alloc, rules)?;
        let counts = no_counts(alloc, rules.as_slice())?;
        let families = allowed(alloc, families)?;
        let signer = Text::from_str(alloc, signer)?;
        Ok(OnChainRules {
            families,
            rules,
            signer,
            txs: Vec::new(alloc),
            counts,
            next_counts: Vec::new(alloc),
        })
    }

    /// The counts of the rules behind the transactions of one more batch.
    fn counted(&self, alloc: Global, txs: &[Arc<Tx>], alike: bool) -> Result<Vec<usize>, AllocError>
        requires { alike ≡ true → are_alike (map arc_value txs.now) ≡ true }
        ensures { (m : StateMap) (signer : List ℕ) (before : List BatchShape) → Stands self.now m signer before
            → IfOk result (λ counts. counts.items ≡ map (count_for (txs_in before ++ map arc_value txs.now)) (rules_in m)) }
    {
        counts_behind(alloc, self.rules.as_slice(), &self.counts, txs, alike)
    }

    /// What is wrong with the transactions of the batch with which was counted.
    fn fault_in(&self, txs: &[Arc<Tx>], alike: bool) -> Result<Option<PolicyFault>, AllocError>
        requires { alike ≡ true → are_alike (map arc_value txs.now) ≡ true }
        ensures { (m : StateMap) (signer : List ℕ) (before : List BatchShape) (batch : BatchShape)
            → Looked self.now m signer before batch → batch.txs ≡ map arc_value txs.now
            → IfOk result (λ found. found ≡ fault m signer before batch) }
    {
        match family_fault(&self.families, txs, alike)? {
            Some(fault) => Ok(Some(fault)),
            None => rule_fault(
                self.rules.as_slice(),
                &self.next_counts,
                self.signer.as_str(),
                self.txs.len(),
                txs,
            ),
        }
    }

    /// Counts with the transactions of the batch that is looked at. An `Err` changes nothing.
    fn count(&mut self, alloc: Global, txs: &[Arc<Tx>], alike: bool) -> Result<(), AllocError>
        requires { alike ≡ true → are_alike (map arc_value txs.now) ≡ true }
        ensures ok { OnOk result ((m : StateMap) (signer : List ℕ) (before : List BatchShape) (batch : BatchShape)
            → Stands self.old m signer before → batch.txs ≡ map arc_value txs.now
            → Looked self.new m signer before batch) }
    {
        self.next_counts = self.counted(alloc, txs, alike)?;
        Ok(())
    }

    /// Looks at the transactions of a batch.
    fn fault_of(
        &mut self,
        alloc: Global,
        txs: &[Arc<Tx>],
    ) -> Result<Option<PolicyFault>, AllocError>
        ensures fault { (m : StateMap) (signer : List ℕ) (before : List BatchShape) (batch : BatchShape)
            → Stands self.old m signer before → batch.txs ≡ map arc_value txs.now
            → IfOk result (λ found. found ≡ fault m signer before batch) }
        ensures looked { (m : StateMap) (signer : List ℕ) (before : List BatchShape) (batch : BatchShape)
            → Stands self.old m signer before → batch.txs ≡ map arc_value txs.now
            → OnOk result (Looked self.new m signer before batch) }
    {
        let alike = are_alike(txs);
        self.count(alloc, txs, alike)?;
        self.fault_in(txs, alike)
    }

    /// Adds the transactions of the batch that was looked at last.
    fn add(&mut self, alloc: Global, txs: &[Arc<Tx>]) -> Result<(), AllocError>
        ensures { OnOk result ((m : StateMap) (signer : List ℕ) (before : List BatchShape) (batch : BatchShape)
            → Looked self.old m signer before batch → batch.txs ≡ map arc_value txs.now
            → Stands self.new m signer (before ++ batch ∷ [])) }
    {
        let mut more = shared(alloc, txs)?;
        self.txs.append(&mut more)?;
        self.counts = mem::replace(&mut self.next_counts, Vec::new(alloc));
        Ok(())
    }

    /// Adds the transactions of a batch without a judgement.
    fn add_unjudged(&mut self, alloc: Global, txs: &[Arc<Tx>]) -> Result<(), AllocError>
        ensures { OnOk result ((m : StateMap) (signer : List ℕ) (before : List BatchShape) (batch : BatchShape)
            → Stands self.old m signer before → batch.txs ≡ map arc_value txs.now
            → Stands self.new m signer (before ++ batch ∷ [])) }
    {
        self.count(alloc, txs, are_alike(txs))?;
        self.add(alloc, txs)
    }

    /// Adds batches without a judgement. An `Err` may have added some.
    fn add_all(&mut self, alloc: Global, batches: &[TxBatch]) -> Result<(), AllocError>
        ensures { OnOk result ((m : StateMap) (signer : List ℕ) → Stands self.old m signer [] → Stands self.new m signer batches.now) }
    {
        for batch in batches {
            self.add_unjudged(alloc, batch.txs.as_slice())?;
        }
        Ok(())
    }
}

impl BlockPolicy for OnChainRules {
    ghost use Rattle.saw_rules.specs.OnChainRules.{fault, end_fault};
    ghost use Rattle.saw_rules.specs.Courses.{Looked, Stands};

    ghost fault = { fault };

    ghost end_fault = { end_fault };

    ghost stands = { Stands };

    ghost looked = { Looked };

    fn begin<B: Base>(alloc: Global, parent: &B, signer: &str) -> Result<Self, AllocError> {
        let families = parent.get(&address_of(FAMILIES));
        let rules = parent.get(&address_of(RULES));
        OnChainRules::read(alloc, families, rules, signer)
    }

    fn look<B: Base>(
        &mut self,
        alloc: Global,
        _parent: &B,
        batch: &TxBatch,
    ) -> Result<Option<PolicyFault>, AllocError> {
        self.fault_of(alloc, batch.txs.as_slice())
    }

    fn pass(&mut self, alloc: Global, batch: &TxBatch) -> Result<(), AllocError> {
        self.add(alloc, batch.txs.as_slice())
    }

    fn judge_all(&self) -> Result<Option<PolicyFault>, AllocError> {
        end_fault(self.rules.as_slice(), &self.txs)
    }

    fn judge<B: Base>(
        alloc: Global,
        parent: &B,
        signer: &str,
        before: &[TxBatch],
        batch: &TxBatch,
    ) -> Result<Option<PolicyFault>, AllocError> {
        let families = parent.get(&address_of(FAMILIES));
        let rules = parent.get(&address_of(RULES));
        let mut course = OnChainRules::read(alloc, families, rules, signer)?;
        course.add_all(alloc, before)?;
        course.fault_of(alloc, batch.txs.as_slice())
    }

    fn judge_end<B: Base>(
        alloc: Global,
        parent: &B,
        batches: &[TxBatch],
    ) -> Result<Option<PolicyFault>, AllocError> {
        let families = parent.get(&address_of(FAMILIES));
        let rules = parent.get(&address_of(RULES));
        let mut course = OnChainRules::read(alloc, families, rules, "")?;
        course.add_all(alloc, batches)?;
        course.judge_all()
    }
}
