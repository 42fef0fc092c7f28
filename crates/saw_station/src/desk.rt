//! A worker's place: the built-in processors, and maybe a remote one.

ghost use Rattle.std.specs.Prelude.{◌≡◌, true, IfOk, IfSome};
ghost use Rattle.std.specs.Arc.{arc_value};
ghost use Rattle.saw_station.specs.DeskPlaces.{IsOpen};

use crate::offer::Offer;
use crate::station::Station;
use std::alloc::AllocError;
use std::marker::Model;
use std::sync::Arc;

/// Serves the built-in families, and what its remote offers where it has one. A built-in family is always served by
/// the built-in processor.
pub struct Desk<R: Station> {
    pub(crate) remote: Option<R>,
    pub(crate) offers: Arc<Vec<Offer>>,
}

// One step of a proof wherever one ends.
impl<R: Station> Drop for Desk<R> {
    fn drop(self) {
        let Desk {
            remote: _remote,
            offers: _offers,
        } = self;
    }
}

impl<R: Station> Model for Desk<R> {
    ghost use Rattle.std.specs.Arc.{arc_value};
    ghost use Rattle.saw_station.specs.DeskPlaces.{Place, IsOpen};

    ghost Value = { Place R };

    ghost view = { λ desk. record { remote = desk.remote; offers = (arc_value desk.offers).items } };

    ghost invariant = { λ desk. IsOpen R.begun desk.remote (arc_value desk.offers).items };
}

impl<R: Station> Desk<R> {
    /// The desk of a remote that has begun, with the offers that all remotes have in common; without a remote there are
    /// none.
    pub fn new(remote: Option<R>, offers: Arc<Vec<Offer>>) -> Self
        requires { IsOpen R.begun remote (arc_value offers).items }
        ensures { result ≡ record { remote = remote; offers = (arc_value offers).items } }
    {
        Desk { remote, offers }
    }

    /// Gives the remote back, which has begun.
    pub fn into_remote(self) -> Option<R>
        ensures remote { result ≡ self.remote }
        ensures begun { IfSome result (λ remote. R.begun remote ≡ true) }
    {
        let Desk {
            remote,
            offers: _offers,
        } = self;
        remote
    }

    /// What its remote offers.
    pub fn offers(&self) -> &[Offer]
        ensures { result.now ≡ self.now.offers }
    {
        self.offers.as_slice()
    }

    /// The same list, shared.
    pub fn shared_offers(&self) -> Result<Arc<Vec<Offer>>, AllocError>
        ensures { IfOk result (λ offers. (arc_value offers).items ≡ self.now.offers) }
    {
        self.offers.clone()
    }
}
