ghost use Rattle.std.specs.Prelude.{◌≡◌, IfOk};
ghost use Rattle.std.specs.Option.{ok_or};
ghost use Rattle.records.specs.declared.fault.Fault.TheVariants as fault;
ghost use Rattle.book.specs.Drafts.{fresh, follows, is_open, taking, taken_kind, taken_draft};
ghost use Rattle.book.specs.Held.{draft_of};

use crate::draft::{Draft, MOST_RULES, State, Tables};
use crate::kinds::Kinds;
use records::fault::Fault;
use records::kinds::RecordKind;
use records::reads::{begun, fields};
use std::alloc::{AllocError, Global};

impl Draft {
    /// A draft that has taken no record; it claims all the memory that it will need.
    pub fn new(heap: Global) -> Result<Draft, AllocError>
        ensures value { IfOk result (λ d. draft_of d ≡ fresh) }
    {
        let rules = Vec::with_capacity(heap, MOST_RULES)?;
        let tables = Tables {
            kinds: Kinds::none(),
            rules,
        };
        Ok(Draft {
            tables,
            state: State::Between,
        })
    }

    /// Takes the first record of the bytes, and answers its kind; refused, it changes nothing.
    pub fn take(&mut self, bytes: &[u8]) -> Result<RecordKind, Fault>
        ensures value { result ≡ taken_kind (taking (draft_of self.old) bytes.now) }
        ensures after { draft_of self.new ≡ taken_draft (taking (draft_of self.old) bytes.now) (draft_of self.old) }
    {
        let kind = begun(bytes)?;
        let next = self.following(kind)?;
        let record = fields(kind, bytes)?;
        self.tables.enter(record)?;
        self.state = next;
        Ok(kind)
    }

    // The state after a record of this kind, if it may follow now.
    // Kept as one match of the state and the kind that arrives, a required form: a table of what may follow.
    fn following(&self, kind: RecordKind) -> Result<State, Fault>
        ensures value { result ≡ ok_or (follows self.now.state kind) fault.MayNotFollow }
    {
        match (self.state, kind) {
            (State::Between, RecordKind::FactKind) => Ok(State::Between),
            (State::Between, RecordKind::RuleBegins) => Ok(State::Begun),
            (State::Begun | State::Heads, RecordKind::Head) => Ok(State::Heads),
            (State::Heads | State::Guards, RecordKind::Guard) => Ok(State::Guards),
            (State::Heads | State::Guards | State::Facts, RecordKind::BodyFact) => Ok(State::Facts),
            (State::Heads | State::Guards, RecordKind::Fail) => Ok(State::Failing),
            (State::Heads | State::Guards | State::Facts | State::Failing, RecordKind::RuleEnds) =>
                Ok(State::Between),
            _ => Err(Fault::MayNotFollow),
        }
    }

    /// Whether a rule is open.
    pub fn is_open(&self) -> bool
        ensures value { result ≡ is_open (draft_of self.now).state }
    {
        self.state != State::Between
    }
}
