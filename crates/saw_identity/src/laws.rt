//! Laws of the family besides other stations, and of permissions.

ghost use Rattle.saw_identity.specs.Laws.{CommonWithIdentity, NothingKeptDeniesNothing};

/// What stations have in common that all serve the family besides is the family, and what the inner ones have in common.
pub fn common_with_identity()
    ensures { CommonWithIdentity }
{}

/// Where no role and no policy is kept, nobody is denied.
pub fn nothing_kept_denies_nothing()
    ensures { NothingKeptDeniesNothing }
{}
