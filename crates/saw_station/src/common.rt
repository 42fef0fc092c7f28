//! What several external processors all offer.

ghost use Rattle.std.specs.Prelude.{◌≡◌, map, IfOk};
ghost use Rattle.std.specs.List.{filter, list_all};
ghost use Rattle.saw_station.specs.CommonOffers.{common, is_common};
ghost use Rattle.saw_station.specs.Serving.{is_offered};

use crate::offer::Offer;
use crate::serving::is_offered;
use crate::station::Station;
use std::alloc::{AllocError, Global};

// Whether each of these has the offer.
fn has_each<R: Station>(remotes: &[R], offer: &Offer) -> bool
    ensures { result ≡ list_all
        (λ remote. is_offered (R.offered remote) offer.now.family offer.now.version) remotes.now }
{
    remotes.iter().all(|remote| {
        is_offered(
            remote.offers(),
            offer.family.as_str(),
            offer.version.as_str(),
        )
    })
}

// The same, by what they offer.
fn is_common<R: Station>(remotes: &[R], offer: &Offer) -> bool
    ensures { result ≡ is_common (map R.offered remotes.now) offer.now }
{
    has_each(remotes, offer)
}

/// The offers that every remote has, in the order of the first. Without remotes there are none.
pub fn common_offers<R: Station>(alloc: Global, remotes: &[R]) -> Result<Vec<Offer>, AllocError>
    ensures { IfOk result (λ offers. offers.items ≡ common (map R.offered remotes.now)) }
{
    match remotes.split_first() {
        Some((first, others)) => offers_in_common(alloc, first.offers(), others),
        None => Ok(Vec::new(alloc)),
    }
}

// Those of these offers that each of the others has, in their order.
fn offers_in_common<R: Station>(
    alloc: Global,
    offers: &[Offer],
    others: &[R],
) -> Result<Vec<Offer>, AllocError>
    ensures { IfOk result (λ kept. kept.items ≡ filter (is_common (map R.offered others.now)) offers.now) }
{
    let mut kept = Vec::new(alloc);
    for offer in offers {
        if is_common(others, offer) {
            kept.push(offer.try_clone(alloc)?)?;
        }
    }
    Ok(kept)
}
