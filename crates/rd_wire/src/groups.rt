//! Groups, read from the front of some bytes.
ghost use Rattle.std.specs.Prelude.{◌≡◌, option_map};
ghost use Rattle.rd_list.specs.Wrappers.{wrapper};
ghost use Rattle.rd_wire.specs.Figures.{max_groups};
ghost use Rattle.rd_wire.specs.Internal.LevelReading.{head_at};

use crate::fields::{byte, key, mode};
use rd_geom::Blend;
use rd_keys::BoxKey;

/// How many groups may stand round an entry.
pub(crate) const MAX_GROUPS: u32 = 256;

/// The limits, so that clauses can say what they are.
fn figures()
    ensures { MAX_GROUPS ≡ max_groups }
{}

/// The key, the opacity and the blend mode of a group.
#[tactic(auto, unfolding(crate::specs::Internal::LevelReading::head_at))]
pub(crate) fn head(bytes: &[u8]) -> Option<((BoxKey, (u8, Blend)), &[u8])>
    ensures { option_map (λ x. (wrapper x.0.0 x.0.1.0 x.0.1.1, x.1.now)) result ≡ head_at bytes.now }
{
    let (key, rest) = key(bytes)?;
    let (opacity, rest) = byte(rest)?;
    let (blend, rest) = mode(rest)?;
    Some(((key, (opacity, blend)), rest))
}
