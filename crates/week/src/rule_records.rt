ghost use Rattle.std.specs.Prelude.{◌≡◌, ◌≤◌, length, IfOk};
ghost use Rattle.book.specs.Held.{draft_of};
ghost use Rattle.week.specs.Weeks.{rules_end, rules_from, ended_with, open_fault};

use crate::week::At;
use book::draft::Draft;
use records::fault::Fault;
use records::kinds::RecordKind;
use records::reads::begun;

/// Puts the records up to the first goal fact into the draft, and answers where they end, or the
/// first fault.
pub(crate) fn read_rules(draft: &mut Draft, file: &[u8]) -> Result<usize, At>
    ensures value { ended_with result (draft_of draft.new) ≡ rules_from (length file.now) 0 (draft_of draft.old) file.now }
    ensures within { IfOk result (λ p. p ≤ length file.now) }
{
    let mut place = 0;
    // Kept as a loop that a `break` ends: a required form, which gives the first fault with its place.
    loop {
        if rules_end(draft, &file[place..]) {
            break Ok(place);
        }
        match draft.take(&file[place..]) {
            Ok(kind) => place += kind.size(),
            Err(fault) => break Err(At { place, fault }),
        }
    }
}

// Whether the rules end here: nothing is left, or a goal fact may follow.
fn rules_end(draft: &Draft, rest: &[u8]) -> bool
    ensures value { result ≡ rules_end (draft_of draft.now) rest.now }
{
    rest.is_empty() || matches!(begun(rest), Ok(RecordKind::GoalFact)) && !draft.is_open()
}

/// The fault at the end of the file where a rule is open.
pub(crate) fn none_open(draft: &Draft, file: &[u8]) -> Result<(), At>
    ensures value { result ≡ open_fault (draft_of draft.now) file.now }
{
    if draft.is_open() {
        return Err(At {
            place: file.len(),
            fault: Fault::RuleOpen,
        });
    }
    Ok(())
}
