// What is told of a traced table: a position is told as the record there.
ghost use Rattle.std.specs.Prelude.{◌≡◌};
ghost use Rattle.connection.specs.Steps.{record_at, outcome_in, answer_in};

use crate::Connected;
use refusals::{Reason, Refusal};
use tracing::Traced;

#[tactic(auto, unfolding(crate::specs::Steps::record_at))]
fn record_at(order: &[u32], place: u32) -> u32
    ensures { result ≡ record_at order.now place }
{
    order.get(place as usize).copied().unwrap_or(0)
}

fn outcome_of(order: &[u32], stop: u32, place: u32) -> Result<(), Refusal>
    ensures { result ≡ outcome_in order.now stop place }
{
    if stop == 0 {
        return Ok(());
    }
    Err(Refusal {
        reason: Reason::Loose,
        place: record_at(order, place) as u64,
    })
}

#[tactic(auto, unfolding(crate::specs::Steps::answer_in))]
pub fn answer_of(order: &[u32], traced: Traced) -> Connected
    ensures { result ≡ answer_in order.now traced }
{
    Connected {
        contours: traced.contours,
        corners: traced.corners,
        holes: traced.holes,
        open: traced.unclosed,
        outcome: outcome_of(order, traced.stop, traced.place),
    }
}
