use crate::outcome::{Outcome, Refused, of_hand_in};
use host::host::Host;
use meaning::roll::ROLL_PLACES;
use order::order::Order;
use perform::perform::perform;
use perform::performed::{Performed, Room};
use records::kinds::RecordKind;
use records::parts::Goal;
use run::run::Run;
use std::alloc::{AllocError, Global};
use store::Store;
use tally::answers::Answer;
use tally::calls::Call;
use week::reader::Reader;
use week::week::{At, Week};

/// A week whose run has ended, and how.
#[derive(Drop)]
pub struct Ended<S: Store, H: Host, O: Order> {
    pub run: Run<S, H, O>,
    pub outcome: Outcome,
}

/// Why no run came of a week file: its reading was refused, or there was no memory for the work.
#[derive(Clone, Copy, PartialEq, Eq, Debug)]
pub enum Unread {
    Refused(Refused),
    NoMemory,
}

impl From<AllocError> for Unread {
    fn from(_e: AllocError) -> Unread {
        Unread::NoMemory
    }
}

impl From<At> for Unread {
    fn from(at: At) -> Unread {
        Unread::Refused(at.into())
    }
}

/// One firing more than a roll has places: a run with so many ends otherwise than by count.
const TO_THE_END: u32 = ROLL_PLACES as u32 + 1;

/// Reads a week file, hands its goal facts in, and runs until nothing waits, a rule fails or a firing is
/// refused.
pub fn conduct<S: Store + Drop, H: Host + Drop, O: Order + Drop>(
    heap: Global,
    file: &[u8],
    store: S,
    host: H,
    order: O,
) -> Result<Ended<S, H, O>, Unread> {
    let reader = Reader::new(heap)?;
    let Week {
        book,
        start,
        goals,
        fault,
    } = reader.read(file)?;
    let calls = hand_ins(heap, &goals)?;
    let room = Room::claim(heap, calls.len())?;
    let Performed { run, answers } = perform(room, book, store, host, order, &calls);
    if let Some(refused) = first_refused(&answers, start) {
        return Err(Unread::Refused(refused));
    }
    if let Some(at) = fault {
        return Err(at.into());
    }
    let mut run = run;
    let ran = run.run(TO_THE_END);
    let outcome = ran.ending.into();
    Ok(Ended { run, outcome })
}

// The hand-ins of goal facts as a list of calls.
fn hand_ins(heap: Global, goals: &[Goal]) -> Result<Vec<Call>, AllocError> {
    goals
        .iter()
        .map(|goal| Call::HandIn {
            kind: goal.kind,
            values: goal.values,
        })
        .collect(heap)
}

// The first of the hand-ins that was refused, with the place of its record.
fn first_refused(answers: &[Answer], start: usize) -> Option<Refused> {
    answers.iter().enumerate().find_map(|(i, answer)| match answer {
        Answer::HandIn(Err(refusal)) => Some(of_hand_in(goal_place(start, i), *refusal)),
        _ => None,
    })
}

// The place of the record of a goal fact, of those that begin at a place.
fn goal_place(start: usize, i: usize) -> usize {
    start.saturating_add(i.saturating_mul(RecordKind::GoalFact.size()))
}
