//! From steps to finished bytes.
ghost use Rattle.std.specs.Prelude.{map, IfOk};
ghost use Rattle.std.specs.List.{AllByRecursion};
ghost use Rattle.planus.specs.Steps.{bare_step};
ghost use Rattle.planus_write.specs.View.{settings_of};
ghost use Rattle.planus.specs.Replays.{finish_given, Replays, given_by};
ghost use Rattle.planus.specs.FinishHolds.{FinishHolds, AreFinishesOf, finishes_of};

use crate::replaying::faults::ReplayError;
use crate::replaying::finishes::Finished;
use crate::replaying::state::ReplayState;
use crate::replaying::steps::Step;
use planus_write::Caches;
use std::alloc::Global;

/// Returns what each finish of the steps gives, in order. Equal strings, byte vectors and vtables
/// are written once where `caches` says so.
///
/// Each step is checked before it writes, and the first that fails decides: with
/// [`ReplayError::BadStep`] if its check fails, [`ReplayError::TooLarge`] if a part would begin
/// more than 2147483647 bytes from the end, and [`ReplayError::OutOfMemory`] if an allocation
/// fails.
pub fn replay(alloc: Global, caches: Caches, steps: &[Step]) -> Result<Vec<Finished>, ReplayError>
    ensures run { Replays (settings_of caches) (map bare_step steps.now) (given_by result) }
    ensures holds { IfOk result (λ finished. AllByRecursion
        (FinishHolds (settings_of caches) (map bare_step steps.now))
        (map finish_given finished.items)) }
    ensures of_steps { IfOk result (λ finished. AreFinishesOf (settings_of caches)
        (map bare_step steps.now) (finishes_of (map bare_step steps.now))
        (map finish_given finished.items)) }
{
    let mut progress = ReplayState::new(alloc, caches)?;
    for step in steps {
        progress.advance(alloc, step)?;
    }
    let ReplayState { finished, .. } = progress;
    Ok(finished)
}
