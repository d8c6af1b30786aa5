//! The plan of the compiled rows that a change of a book leads to.
ghost use Rattle.std.specs.Prelude.{◌-◌, IfOk, OnOk, option_copied};
ghost use Rattle.acl_compile.specs.Plans.{CanBeCounted, IsKept, IsPolicyPlan};
ghost use Rattle.desk_books.specs.RowPlans.{IsFileRows, IsRowPlan, IsRowsPaid, IsPaidByPolicy, IsRowsRead, IsFileRead, AreRead};
ghost use Rattle.usage_tables.specs.Policies.{policy_change, policy_after};

use crate::change::BookChange;
use acl_compile::{Compiled, RowPlan};
use acl_model::Policy;
use base_rows::Steps;
use file_cache::{CacheChange, FileCache, PolicyChange};
use mud_base::Memory;
use mud_url::MudUrl;
use std::sync::ledger::Ledger;

/// Plans that this policy is held for the URL, or none.
fn policy_rows<L: Ledger>(
    compiled: &mut Compiled,
    url: &MudUrl,
    policy: Option<&Policy>,
    steps: &mut Steps<L>,
) -> Result<RowPlan, Memory>
    requires { CanBeCounted (option_copied policy) }
    ensures kept { IsKept compiled.old compiled.new }
    ensures ok { IfOk result (IsPolicyPlan url.now (option_copied policy.entry) compiled.new) }
    ensures steps { IsPaidByPolicy url.now (option_copied policy.entry) compiled.old (steps.new - steps.old) }
    ensures read { OnOk result (AreRead url.now (option_copied policy.entry) compiled.old (steps.new - steps.old)) }
{
    if !compiled.has_slot(url) {
        return Err(Memory);
    }
    compiled.plan_policy(url, policy, steps)
}

/// Plans the rows of a change of files, which aren't committed yet.
#[tactic(auto, using(crate::proofs::FileRows::candidates_count, crate::proofs::FileRows::comes_rows, crate::proofs::FileRows::comes_paid, crate::proofs::FileRows::goes_rows, crate::proofs::FileRows::goes_paid, crate::proofs::FileRows::none_paid, crate::proofs::FileRows::goes_read, crate::proofs::FileRows::stays_read))]
fn file_rows<L: Ledger>(
    files: &FileCache,
    compiled: &mut Compiled,
    change: &CacheChange,
    steps: &mut Steps<L>,
) -> Result<RowPlan, Memory>
    ensures kept { IsKept compiled.old compiled.new }
    ensures ok { IfOk result (IsFileRows (policy_change change.now.edit) change.now.url files.now.files compiled.new) }
    ensures steps { IsPaidByPolicy change.now.url (policy_after (policy_change change.now.edit) files.now.files change.now.url) compiled.old (steps.new - steps.old) }
    ensures read { OnOk result (IsFileRead (policy_change change.now.edit) change.now.url files.now.files compiled.old (steps.new - steps.old)) }
{
    let url = change.url();
    match change.policy() {
        PolicyChange::Stays => compiled.plan_member(&[], &[], steps),
        PolicyChange::Comes => policy_rows(compiled, url, files.candidate_policy(url), steps),
        PolicyChange::Goes => policy_rows(compiled, url, None, steps),
    }
}

/// Plans the rows of a change, over the files before it.
pub(crate) fn row_plan<L: Ledger>(
    files: &FileCache,
    compiled: &mut Compiled,
    change: &BookChange,
    steps: &mut Steps<L>,
) -> Result<RowPlan, Memory>
    ensures kept { IsKept compiled.old compiled.new }
    ensures ok { IfOk result (IsRowPlan change.now files.now.files compiled.new) }
    ensures steps { IsRowsPaid change.now files.now.files compiled.old (steps.new - steps.old) }
    ensures read { OnOk result (IsRowsRead change.now files.now.files compiled.old (steps.new - steps.old)) }
{
    match change {
        BookChange::Things(change) => compiled.plan_member(change.gone(), change.come(), steps),
        BookChange::Files(change) => file_rows(files, compiled, change, steps),
        BookChange::Binds(change) => compiled.plan_member(change.gone(), change.come(), steps),
    }
}
