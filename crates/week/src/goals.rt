ghost use Rattle.std.specs.Prelude.{◌≡◌, ◌≤◌, length, drop, vec_len, vec_capacity};
ghost use Rattle.week.specs.Weeks.{goal_at_front, goals_from};

use crate::reader::MOST_GOALS;
use crate::week::At;
use records::fault::Fault;
use records::kinds::{Record, RecordKind};
use records::parts::Goal;
use records::reads::{begun, fields};

/// Lists the goal facts from a place on, and answers the fault that ended them, if any.
pub(crate) fn read_goals(goals: &mut Vec<Goal>, file: &[u8], start: usize) -> Option<At>
    requires none { vec_len goals.old ≡ 0 }
    requires room { 1025 ≤ vec_capacity goals.old }
    requires within { start ≤ length file.now }
    ensures value { record { goals = goals.exit.now.items; fault = result } ≡ goals_from 1025 start (drop start file.now) }
{
    let mut place = start;
    // Kept as a loop that a `break` ends: a required form, which gives the first fault with its place.
    loop {
        if goals.len() >= MOST_GOALS || place >= file.len() {
            break None;
        }
        match goal_at_front(&file[place..]) {
            Ok(goal) => {
                goals.push_reserved(goal);
                place += RecordKind::GoalFact.size();
            }
            Err(fault) => break Some(At { place, fault }),
        }
    }
}

// The goal fact that the bytes begin with.
fn goal_at_front(bytes: &[u8]) -> Result<Goal, Fault>
    ensures value { result ≡ goal_at_front bytes.now }
{
    let kind = begun(bytes)?;
    if kind != RecordKind::GoalFact {
        return Err(Fault::MayNotFollow);
    }
    match fields(kind, bytes)? {
        Record::GoalFact(goal) => Ok(goal),
        _ => Err(Fault::MayNotFollow),
    }
}
