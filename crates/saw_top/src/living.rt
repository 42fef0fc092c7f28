//! What the options of `apply` beside readers say.

ghost use Rattle.std.specs.Prelude.{◌≡◌, ◌≤◌, IfSome, option_map};
ghost use Rattle.saw_top.specs.LiveWords.{door_by, live_by, opened_door};
ghost use Rattle.saw_top.specs.Plans.{plan_wish};

use crate::door::Door;
use crate::given::Given;
use crate::numbers::required;
use crate::options::apply_by;
use crate::said::Plan;

/// Where readers connect.
pub(crate) fn door_by<'a, G: Given<'a>>(given: &G) -> Option<Door>
    ensures value { result ≡ door_by (G.value given.now) }
    ensures port { IfSome result (λ door. door.port ≤ 65535) }
    ensures few { IfSome result (λ door. door.readers ≤ 64) }
{
    let port = required(1, 65_535, given.of("--live"))?;
    let readers = required(1, 64, given.of("--readers"))?;
    Some(Door { port, readers })
}

/// What is done with the blocks of the stream beside readers. `None`: the options are invalid.
pub(crate) fn live_by<'a, G: Given<'a>>(given: &G) -> Option<Plan<'a>>
    ensures { option_map plan_wish result ≡ live_by (G.value given.now) }
{
    match door_by(given) {
        Some(_) => apply_by(given),
        None => None,
    }
}

/// Where readers connect, if the options are valid.
pub(crate) fn opened_door<'a, G: Given<'a>>(given: &G) -> Option<Door>
    ensures value { result ≡ opened_door (G.value given.now) }
    ensures port { IfSome result (λ door. door.port ≤ 65535) }
    ensures few { IfSome result (λ door. door.readers ≤ 64) }
{
    if live_by(given).is_none() {
        return None;
    }
    door_by(given)
}
