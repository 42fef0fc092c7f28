//! What judges blocks by the state of their parent.

use saw_identity::{Both, Permissions};
use saw_rules::OnChainRules;

/// The settings on families and blocks, and then the permissions.
pub(crate) type Governed = Both<OnChainRules, Permissions>;
