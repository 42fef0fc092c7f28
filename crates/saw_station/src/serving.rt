//! Who serves a family.

ghost use Rattle.std.specs.Prelude.{◌≡◌, map, option_map, IfOk};
ghost use Rattle.saw_station.specs.Families.{families, family_of, is_family, offer_of, row};
ghost use Rattle.saw_station.specs.Serving.{is_offered, serving};

use crate::offer::Offer;
use saw_wire::Text;
use std::alloc::{AllocError, Global};

/// A family whose processor is built in.
#[derive(Clone, Copy, Debug)]
pub(crate) enum Family {
    IntKey,
    Xo,
    Settings,
}

/// All of them, in the order in which a processor of them registers.
const FAMILIES: [Family; 3] = [Family::IntKey, Family::Xo, Family::Settings];

impl Family {
    fn name(self) -> &'static str
        ensures { result.now ≡ (row self).name }
    {
        match self {
            Family::IntKey => saw_intkey::NAME,
            Family::Xo => saw_xo::NAME,
            Family::Settings => saw_settings::NAME,
        }
    }

    fn version(self) -> &'static str
        ensures { result.now ≡ (row self).version }
    {
        match self {
            Family::IntKey => saw_intkey::VERSION,
            Family::Xo => saw_xo::VERSION,
            Family::Settings => saw_settings::VERSION,
        }
    }

    fn is(self, family: &str, version: &str) -> bool
        ensures { result ≡ is_family (row self).name (row self).version family.now version.now }
    {
        family == self.name() && version == self.version()
    }

    fn offer(self, alloc: Global) -> Result<Offer, AllocError>
        ensures { IfOk result (λ offer. offer ≡ offer_of (row self)) }
    {
        Ok(Offer {
            family: Text::from_str(alloc, self.name())?,
            version: Text::from_str(alloc, self.version())?,
        })
    }
}

/// The family of this name and version. `None`: it is not built in.
pub(crate) fn family_of(family: &str, version: &str) -> Option<Family>
    ensures { option_map row result ≡ family_of family.now version.now }
{
    let all: &[Family] = &FAMILIES;
    for one in all {
        if one.is(family, version) {
            return Some(*one);
        }
    }
    None
}

/// What a processor of all built-in families registers.
pub fn built_in_offers(alloc: Global) -> Result<Vec<Offer>, AllocError>
    ensures { IfOk result (λ offers. offers.items ≡ map offer_of families) }
{
    let mut offers = Vec::new(alloc);
    let all: &[Family] = &FAMILIES;
    for one in all {
        offers.push(one.offer(alloc)?)?;
    }
    Ok(offers)
}

/// Who answers for a transaction.
#[derive(Clone, Copy, Debug, PartialEq, Eq)]
pub(crate) enum Served {
    BuiltIn,
    Remote,
}

/// Whether the family is offered in this version.
pub(crate) fn is_offered(offers: &[Offer], family: &str, version: &str) -> bool
    ensures { result ≡ is_offered offers.now family.now version.now }
{
    offers.iter().any(|offer| family == offer.family.as_str() && version == offer.version.as_str())
}

/// Who serves the family in this version. `None`: nobody does.
pub(crate) fn serving(offers: &[Offer], family: &str, version: &str) -> Option<Served>
    ensures { result ≡ serving offers.now family.now version.now }
{
    if family_of(family, version).is_some() {
        Some(Served::BuiltIn)
    } else if is_offered(offers, family, version) {
        Some(Served::Remote)
    } else {
        None
    }
}
