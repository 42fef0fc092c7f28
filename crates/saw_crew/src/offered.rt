//! Whether batches ask external processors.

ghost use Rattle.std.specs.Prelude.{◌≡◌, map};
ghost use Rattle.std.specs.Arc.{arc_value};
ghost use Rattle.std.specs.List.{list_any};
ghost use Rattle.saw_crew.specs.Offered.{are_offered, tx_offered};
ghost use Rattle.saw_plan.specs.BatchShapes.{txs_of};

use saw_messages::{Tx, TxBatch};
use saw_station::Offer;
use std::sync::Arc;

fn tx_offered(offers: &[Offer], tx: &Tx) -> bool
    ensures { result ≡ tx_offered offers.now tx.now }
{
    let header = &tx.header;
    offers.iter().any(|offer| header.family_name == offer.family
        && header.family_version == offer.version)
}

fn is_one_offered(offers: &[Offer], txs: &[Arc<Tx>]) -> bool
    ensures { result ≡ list_any (tx_offered offers.now) (map arc_value txs.now) }
{
    txs.iter().any(|tx| tx_offered(offers, tx))
}

/// Whether a transaction of the batches is of a family and version that these offers have. Where none is, the built-in
/// processors alone are asked.
pub fn are_offered(offers: &[Offer], batches: &[TxBatch]) -> bool
    ensures { result ≡ are_offered offers.now (txs_of batches.now) }
{
    batches
        .iter()
        .any(|batch| is_one_offered(offers, batch.txs.as_slice()))
}
