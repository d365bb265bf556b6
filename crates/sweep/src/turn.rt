// What the sweep carries from event to event beside the lent arrays.
ghost use Rattle.std.specs.Prelude.{◌≡◌, ◌<◌};
ghost use Rattle.checks.specs.Checks.{max_events};
ghost use Rattle.sweep.specs.State.{stop_by};
ghost use Rattle.sweep.specs.Turn.{start_turn, ended_turn, taken_turn, met_turn, lined_turn, is_stopped};

use neighbours::Neighbours;
use refusals::Refusal;

#[derive(Clone, Copy)]
pub enum Stop {
    Going,
    Ended,
    Refused(Refusal),
}

#[derive(Clone, Copy)]
pub struct Turn {
    // The places of the pool in use.
    pub used: u32,
    // The members of the status.
    pub members: u32,
    // The members of the queue.
    pub waiting: u32,
    // The events taken.
    pub count: u32,
    pub tied: bool,
    pub stop: Stop,
}

// Nothing is taken yet.
#[tactic(auto, unfolding(crate::specs::Turn::start_turn))]
pub fn start(used: u32) -> Turn
    ensures { result ≡ start_turn used }
{
    Turn {
        used,
        members: 0,
        waiting: 0,
        count: 0,
        tied: false,
        stop: Stop::Going,
    }
}

// The run has come to its end.
#[tactic(auto, unfolding(crate::specs::Turn::ended_turn))]
pub fn end(t: Turn) -> Turn
    ensures { result ≡ ended_turn t }
{
    Turn {
        stop: Stop::Ended,
        ..t
    }
}

// An event is taken; whether another ties with it.
#[tactic(auto, unfolding(crate::specs::Turn::taken_turn))]
pub fn taking(t: Turn, rival: bool) -> Turn
    requires { t.count < max_events }
    ensures { result ≡ taken_turn t rival }
{
    Turn {
        count: t.count + 1,
        tied: t.tied | rival,
        ..t
    }
}

// With this many in the queue.
#[tactic(auto, unfolding(crate::specs::Turn::lined_turn))]
pub fn line_up(t: Turn, waiting: u32) -> Turn
    ensures { result ≡ lined_turn t waiting }
{
    Turn { waiting, ..t }
}

#[tactic(auto, unfolding(crate::specs::Turn::is_stopped))]
pub fn is_stopped(stop: Stop) -> bool
    ensures { result ≡ is_stopped stop }
{
    !matches!(stop, Stop::Going)
}

#[tactic(auto, unfolding(crate::specs::State::stop_by))]
fn stop_by(met: Result<u32, Refusal>) -> Stop
    ensures { result ≡ stop_by met }
{
    match met {
        Ok(_) => Stop::Going,
        Err(refusal) => Stop::Refused(refusal),
    }
}

// After a meeting, with this many members.
#[tactic(auto, unfolding(crate::specs::Turn::met_turn))]
pub fn after_meeting(t: Turn, members: u32, last: Neighbours) -> Turn
    ensures { result ≡ met_turn t members last.used last.met }
{
    Turn {
        used: last.used,
        members,
        stop: stop_by(last.met),
        ..t
    }
}
