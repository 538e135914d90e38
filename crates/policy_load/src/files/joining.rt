// What was found, joined.
ghost use Rattle.std.specs.Prelude.{◌≡◌, ◌++◌, ◌∷◌, [], false, IfOk};
ghost use Rattle.policy_load.specs.Joins.{has_id, again, nothing_joined, with_fault, with_action, with_actions, with_finding, with_findings};
ghost use Rattle.policy_load.specs.Kept.{joined_of};

use crate::files::finding::Finding;
use crate::files::joined::Joined;
use crate::files::kept::ActionTable;
use crate::files::skipping::report;
use authority_model::{Action, ActionList, FileFault, FileFaultList, RuleList};
use indexmap::IndexSet;
use keyfile_text::{Groups, GroupsList};
use pk_types::{NoMemory, Text, TryCopy};
use std::alloc::Global;

/// What was joined so far.
#[derive(Drop)]
pub struct Joining {
    pub actions: ActionTable,
    pub entries: RuleList,
    pub admins: GroupsList,
    pub faults: FileFaultList,
}

impl ActionTable {
    /// No actions.
    fn new(alloc: Global) -> Self
        ensures none { result.actions ≡ [] }
    {
        ActionTable {
            actions: ActionList::new(alloc),
            ids: IndexSet::new(alloc),
        }
    }

    /// Whether an action has the id.
    fn has(&self, id: &[u8]) -> bool
        ensures has { result ≡ has_id id.now self.now.actions }
    {
        self.ids.contains(id)
    }

    /// One more action, whose id is new.
    fn with_new(self, alloc: Global, action: Action) -> Result<Self, NoMemory>
        requires { has_id action.id self.actions ≡ false }
        ensures actions { IfOk result (λ table. table.actions ≡ self.actions ++ action ∷ []) }
    {
        let mut actions = self.actions;
        let mut ids = self.ids;
        ids.insert(Vec::from_slice(alloc, action.id.bytes())?)?;
        actions.try_push(action)?;
        Ok(ActionTable { actions, ids })
    }
}

impl Joining {
    /// Nothing was joined yet.
    fn new(alloc: Global) -> Self
        ensures nothing { joined_of result ≡ nothing_joined }
    {
        Joining {
            actions: ActionTable::new(alloc),
            entries: RuleList::new(alloc),
            admins: GroupsList::new(alloc),
            faults: FileFaultList::new(alloc),
        }
    }

    /// One more fault.
    fn with_fault(self, fault: FileFault) -> Result<Self, NoMemory>
        ensures joined { IfOk result (λ more. joined_of more ≡ with_fault fault (joined_of self)) }
    {
        let mut more = self;
        more.faults.try_push(fault)?;
        Ok(more)
    }

    /// One more action, which stands at this place of the file at the path. Of two with one id the
    /// first counts, and the other is reported.
    fn with_action(
        self,
        alloc: Global,
        path: &Text,
        at: u64,
        action: Action,
    ) -> Result<Self, NoMemory>
        ensures joined { IfOk result (λ more. joined_of more ≡ with_action path.now at action (joined_of self)) }
    {
        if self.actions.has(action.id.bytes()) {
            let again = report(alloc, path, b"Again", at)?;
            return self.with_fault(again);
        }
        let Joining {
            actions,
            entries,
            admins,
            faults,
        } = self;
        let actions = actions.with_new(alloc, action)?;
        Ok(Joining {
            actions,
            entries,
            admins,
            faults,
        })
    }

    /// The actions of a file.
    fn with_actions(self, alloc: Global, path: &Text, actions: ActionList) -> Result<Self, NoMemory>
        ensures joined { IfOk result (λ more. joined_of more ≡ with_actions path.now 0 actions (joined_of self)) }
    {
        let mut joining = self;
        for (at, action) in actions.into_vec().into_iter().enumerate() {
            joining = joining.with_action(alloc, path, at as u64, action)?;
        }
        Ok(joining)
    }

    /// The groups of an administrators' file.
    fn with_admins(self, groups: Groups) -> Result<Self, NoMemory>
        ensures joined { IfOk result (λ more. joined_of more ≡ with_finding (Finding.Admins groups) (joined_of self)) }
    {
        let mut more = self;
        more.admins.try_push(groups)?;
        Ok(more)
    }

    /// The entries of a file.
    fn with_entries(self, entries: RuleList) -> Result<Self, NoMemory>
        ensures joined { IfOk result (λ more. joined_of more ≡ with_finding (Finding.Entries entries) (joined_of self)) }
    {
        let Joining {
            actions,
            entries: before,
            admins,
            faults,
        } = self;
        let mut all = before.into_vec();
        all.append(&mut entries.into_vec())?;
        Ok(Joining {
            actions,
            entries: RuleList::from_vec(all),
            admins,
            faults,
        })
    }

    /// What one more turn came to.
    fn with_finding(self, alloc: Global, finding: Finding) -> Result<Self, NoMemory>
        ensures joined { IfOk result (λ more. joined_of more ≡ with_finding finding (joined_of self)) }
    {
        match finding {
            Finding::Nothing => Ok(self),
            Finding::Skipped(fault) => self.with_fault(fault),
            Finding::Actions { path, actions } => self.with_actions(alloc, &path, actions),
            Finding::Admins(groups) => self.with_admins(groups),
            Finding::Entries(entries) => self.with_entries(entries),
        }
    }
}

/// What turns come to together, in their order. Of two actions with one id the first stands, and the
/// other is reported as `Again` with its place in its file, counted from 0.
pub fn join(alloc: Global, findings: Vec<Finding>) -> Result<Joined, NoMemory>
    ensures joined { IfOk result (λ joined. joined ≡ with_findings findings.items nothing_joined) }
{
    let mut joining = Joining::new(alloc);
    for finding in findings {
        joining = joining.with_finding(alloc, finding)?;
    }
    let Joining {
        actions: table,
        entries,
        admins,
        faults,
    } = joining;
    Ok(Joined {
        actions: table.actions,
        entries,
        admins,
        faults,
    })
}
