ghost use Rattle.std.specs.Prelude.{◌≡◌, ◌-◌, is_some, IfSome, Result, vec_len, nat_lt, slice_index_or};
ghost use Rattle.std.specs.Fn.{FnOnceReturnsAtMut};
ghost use Rattle.std.specs.Borrow.{sem, follows_if};
ghost use Rattle.std.specs.Option.{ghost_name_of as name_of};
ghost use Rattle.book.specs.contracts.draft.Tables.{the_row as tables_row};
ghost use Rattle.rules.specs.contracts.Rule.{the_row as rule_row};
ghost use Rattle.rules.specs.Results.{Done};
ghost use Rattle.rules.specs.Rules.{Rule as RuleModel};
ghost use Rattle.records.specs.declared.fault.Fault.{Fault as FaultData};
ghost use Rattle.book.specs.Drafts.{opened};
ghost use Rattle.book.specs.Held.{tables_of, with_last, Steps};

use crate::draft::Tables;
use records::fault::Fault;
use rules::Rule;

impl Tables {
    // The last rule, to be changed in its place: what the borrower leaves there is what the tables
    // hold then.
    // Kept as a `&mut` lent out of the table, a required form: a rule is changed through its draft.
    fn open_rule(&mut self) -> Option<&mut Rule>
        ensures* lends { sem 𝓛 (follows_if tables_row rule_row self.entry.ghost_name (name_of result) (with_last self.old) self.old) }
        ensures lends_facts { (is_some result ≡ nat_lt 0 (vec_len self.old.rules)) × (IfSome result (λ x. x.now ≡ slice_index_or self.old.rules.items (vec_len self.old.rules - 1) x.now)) }
    {
        self.rules.last_mut()
    }

    // Changes the open rule by a step; there has to be one.
    pub(super) fn change<F: FnOnce(&mut Rule) -> Result<(), Fault> + Drop>(
        &mut self,
        step: F,
    ) -> Result<(), Fault>
        requires { F.IsAlwaysCallable step }
        ensures done { (f : RuleModel → Result RuleModel FaultData) → Steps (FnOnceReturnsAtMut F.FnOnce step) f → Done (opened (tables_of self.old) f) (tables_of self.old) result (tables_of self.new) }
    {
        let rule = self.open_rule().ok_or(Fault::MayNotFollow)?;
        step(rule)
    }
}
