// What a line makes of the draft.
ghost use Rattle.std.specs.Prelude.{◌≡◌, ◌==◌, ◌&&◌, Ok, OnOk, IfErr, position, bytes_eq};
ghost use Rattle.scenario_text.specs.Faults.{Gives, IsFaultOf};
ghost use Rattle.scenario_run.specs.Drafts.{add_rule, user_row, put_user, group_row, put_group, put_session, put_process, without_process, without_session, without_action, drafted};

use crate::annotations::{imply, own, put_action};
use crate::rows::{put, put_last, take_out};
use crate::texts::{group_label, user_label};
use authority_model::{Action, GidList, Group, Loaded, Process, RuleEntry, Session, User};
use pk_types::{ActionId, Implicit, List, Text};
use scenario_text::{LineKind, Step};
use std::alloc::Global;

/// Puts a rule last.
fn add_rule(draft: &mut Loaded, rule: RuleEntry) -> Result<(), LineKind>
    ensures ok { OnOk result (add_rule draft.old rule ≡ Ok draft.new) }
    ensures err { IfErr result (λ kind. IsFaultOf kind (add_rule draft.old rule)) }
{
    put_last(&mut draft.policy.entries, rule)
}

fn user_row(alloc: Global, uid: u32, name: Text, gids: GidList) -> Result<User, LineKind>
    ensures row { Gives result (user_row uid name gids) }
{
    let label = user_label(alloc, &name)?;
    Ok(User {
        uid,
        name,
        label,
        gids,
    })
}

fn put_user(
    alloc: Global,
    draft: &mut Loaded,
    uid: u32,
    name: Text,
    gids: GidList,
) -> Result<(), LineKind>
    ensures ok { OnOk result (put_user draft.old uid name gids ≡ Ok draft.new) }
    ensures err { IfErr result (λ kind. IsFaultOf kind (put_user draft.old uid name gids)) }
{
    let user = user_row(alloc, uid, name, gids)?;
    put(&mut draft.world.users, user)
}

fn group_row(alloc: Global, gid: u32, name: Text) -> Result<Group, LineKind>
    ensures row { Gives result (group_row gid name) }
{
    let label = group_label(alloc, &name)?;
    Ok(Group { gid, name, label })
}

fn put_group(alloc: Global, draft: &mut Loaded, gid: u32, name: Text) -> Result<(), LineKind>
    ensures ok { OnOk result (put_group draft.old gid name ≡ Ok draft.new) }
    ensures err { IfErr result (λ kind. IsFaultOf kind (put_group draft.old gid name)) }
{
    let group = group_row(alloc, gid, name)?;
    put(&mut draft.world.groups, group)
}

fn put_session(draft: &mut Loaded, session: Session) -> Result<(), LineKind>
    ensures ok { OnOk result (put_session draft.old session ≡ Ok draft.new) }
    ensures err { IfErr result (λ kind. IsFaultOf kind (put_session draft.old session)) }
{
    put(&mut draft.world.sessions, session)
}

fn put_process(draft: &mut Loaded, process: Process) -> Result<(), LineKind>
    ensures ok { OnOk result (put_process draft.old process ≡ Ok draft.new) }
    ensures err { IfErr result (λ kind. IsFaultOf kind (put_process draft.old process)) }
{
    put(&mut draft.world.processes, process)
}

fn process_place(rows: &[Process], pid: u32, start: u64) -> Option<usize>
    ensures first { result ≡ position (λ p. (p.pid == pid) && (p.start == start)) rows.now }
{
    rows.iter().position(|p| p.pid == pid && p.start == start)
}

fn session_place(rows: &[Session], id: &Text) -> Option<usize>
    ensures first { result ≡ position (λ s. bytes_eq s.id id.now) rows.now }
{
    rows.iter().position(|s| s.id.is_same(id))
}

fn action_place(rows: &[Action], id: &ActionId) -> Option<usize>
    ensures first { result ≡ position (λ a. bytes_eq a.id id.now) rows.now }
{
    rows.iter().position(|a| a.id.text().is_same(id.text()))
}

fn take_process(draft: &mut Loaded, pid: u32, start: u64)
    ensures draft { draft.new ≡ without_process draft.old pid start }
{
    let rows = &mut draft.world.processes;
    let place = process_place(rows.as_slice(), pid, start);
    take_out(rows, place);
}

fn take_session(draft: &mut Loaded, id: &Text)
    ensures draft { draft.new ≡ without_session draft.old id.now }
{
    let rows = &mut draft.world.sessions;
    let place = session_place(rows.as_slice(), id);
    take_out(rows, place);
}

fn take_action(draft: &mut Loaded, id: &ActionId)
    ensures draft { draft.new ≡ without_action draft.old id.now }
{
    let rows = &mut draft.policy.actions;
    let place = action_place(rows.as_slice(), id);
    take_out(rows, place);
}

/// Changes the draft as a step says.
///
/// # Errors
/// `Value` where the draft can't be changed so, and for a step that is not a line of the draft or
/// that is not built; `NoMemory`.
pub fn change(alloc: Global, draft: &mut Loaded, step: Step) -> Result<(), LineKind>
    ensures ok { OnOk result (drafted draft.old step ≡ Ok draft.new) }
    ensures err { IfErr result (λ kind. IsFaultOf kind (drafted draft.old step)) }
{
    match step {
        Step::Action {
            id,
            any,
            inactive,
            active,
        } => put_action(draft, Action::plain(alloc, id, any, inactive, active)),
        Step::Imply { id, implied } => imply(alloc, draft, &id, &implied),
        Step::Owner { id, identities } => own(alloc, draft, &id, &identities),
        Step::Entry {
            identities,
            actions,
            any,
            inactive,
            active,
        } => {
            let rule = RuleEntry {
                identities,
                actions,
                any,
                inactive,
                active,
                pairs: List::new(alloc),
            };
            add_rule(draft, rule)
        }
        Step::Admins { items } => {
            draft.policy.admins = items;
            Ok(())
        }
        Step::User { uid, name, gids } => put_user(alloc, draft, uid, name, gids),
        Step::Group { gid, name } => put_group(alloc, draft, gid, name),
        Step::Session { row } => put_session(draft, row),
        Step::Process { row } => put_process(draft, row),
        Step::GoneProcess { pid, start } => {
            take_process(draft, pid, start);
            Ok(())
        }
        Step::GoneSession { id } => {
            take_session(draft, &id);
            Ok(())
        }
        Step::GoneAction { id } => {
            take_action(draft, &id);
            Ok(())
        }
        Step::Blank | Step::At { .. } | Step::Reload | Step::Act { .. } => Err(LineKind::Value),
    }
}
