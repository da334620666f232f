ghost use Rattle.std.specs.Prelude.{◌≡◌, IfOk};
ghost use Rattle.std.specs.String.{string_bytes};
ghost use Rattle.dm_run.specs.Runs.{line_of};

use dm_stream::Refusal;
use std::alloc::{AllocError, Global};

/// The line that tells a refusal: its kind, the place in bytes of the declaration, the message, and LF.
#[tactic(auto, unfolding(crate::specs::Runs::line_of))]
pub fn refusal_line(alloc: Global, refusal: &Refusal) -> Result<String, AllocError>
    ensures { IfOk result (λ line. string_bytes line ≡ line_of refusal.now) }
{
    format!(in alloc; "{refusal}\n")
}
