// The lines that change the draft or the moment: a function for each word that they begin with.
ghost use Rattle.std.specs.Prelude.{◌≡◌, [], ◌∷◌, map, IfOk};
ghost use Rattle.scenario_text.specs.Faults.{Gives};
ghost use Rattle.scenario_text.specs.Runs.{IsRunnable};
ghost use Rattle.scenario_text.specs.DraftLines.{at_line, action_line, imply_line, owner_line, entry_line, admins_line, user_line, group_line, session_line, process_line, gone_process_line, gone_session_line, gone_action_line, reload_line, draft_line};

use crate::fault::LineKind;
use crate::first_word::DraftWord;
use crate::step::Step;
use crate::words::{
    active_word, gids_word, id_word, implicit_word, local_word, number_32, number_64, number_word,
    optional_implicit_word, session_word, some_value_word, text_word, texts_word,
};
use authority_model::{Process, Session};
use std::alloc::Global;

/// The greatest moment, in seconds: 2^62.
const MAX_MOMENT: u64 = 4611686018427387904;

/// `at T`.
fn at_words(args: &[&[u8]]) -> Result<Step, LineKind>
    ensures value { Gives result (at_line (map (λ word. word.now) args.now)) }
    ensures runs { IfOk result IsRunnable }
{
    match args {
        [moment] => {
            let t = number_word(moment, MAX_MOMENT)?;
            Ok(Step::At { t })
        }
        _ => Err(LineKind::Count),
    }
}

fn action(
    alloc: Global,
    id: &[u8],
    any: &[u8],
    inactive: &[u8],
    active: &[u8],
) -> Result<Step, LineKind>
    ensures value { Gives result (action_line (id.now ∷ any.now ∷ inactive.now ∷ active.now ∷ [])) }
    ensures runs { IfOk result IsRunnable }
{
    let id = id_word(alloc, id)?;
    let any = implicit_word(any)?;
    let inactive = implicit_word(inactive)?;
    let active = implicit_word(active)?;
    Ok(Step::Action {
        id,
        any,
        inactive,
        active,
    })
}

/// `action ID ANY INACTIVE ACTIVE`.
fn action_words(alloc: Global, args: &[&[u8]]) -> Result<Step, LineKind>
    ensures value { Gives result (action_line (map (λ word. word.now) args.now)) }
    ensures runs { IfOk result IsRunnable }
{
    match args {
        [id, any, inactive, active] => action(alloc, id, any, inactive, active),
        _ => Err(LineKind::Count),
    }
}

/// `imply ID ID`.
fn imply_words(alloc: Global, args: &[&[u8]]) -> Result<Step, LineKind>
    ensures value { Gives result (imply_line (map (λ word. word.now) args.now)) }
    ensures runs { IfOk result IsRunnable }
{
    match args {
        [id, implied] => {
            let id = id_word(alloc, id)?;
            let implied = id_word(alloc, implied)?;
            Ok(Step::Imply { id, implied })
        }
        _ => Err(LineKind::Count),
    }
}

/// `owner ID IDENTITIES`.
fn owner_words(alloc: Global, args: &[&[u8]]) -> Result<Step, LineKind>
    ensures value { Gives result (owner_line (map (λ word. word.now) args.now)) }
    ensures runs { IfOk result IsRunnable }
{
    match args {
        [id, identities] => {
            let id = id_word(alloc, id)?;
            let identities = texts_word(alloc, identities)?;
            Ok(Step::Owner { id, identities })
        }
        _ => Err(LineKind::Count),
    }
}

fn entry(
    alloc: Global,
    identities: &[u8],
    actions: &[u8],
    any: &[u8],
    inactive: &[u8],
    active: &[u8],
) -> Result<Step, LineKind>
    ensures value { Gives result (entry_line (identities.now ∷ actions.now ∷ any.now ∷ inactive.now ∷ active.now ∷ [])) }
    ensures runs { IfOk result IsRunnable }
{
    let identities = texts_word(alloc, identities)?;
    let actions = texts_word(alloc, actions)?;
    let any_value = optional_implicit_word(any)?;
    let inactive_value = optional_implicit_word(inactive)?;
    let active_value = optional_implicit_word(active)?;
    let _some = some_value_word(any, inactive, active)?;
    Ok(Step::Entry {
        identities,
        actions,
        any: any_value,
        inactive: inactive_value,
        active: active_value,
    })
}

/// `entry IDENTITIES ACTIONS ANY INACTIVE ACTIVE`.
fn entry_words(alloc: Global, args: &[&[u8]]) -> Result<Step, LineKind>
    ensures value { Gives result (entry_line (map (λ word. word.now) args.now)) }
    ensures runs { IfOk result IsRunnable }
{
    match args {
        [identities, actions, any, inactive, active] => {
            entry(alloc, identities, actions, any, inactive, active)
        }
        _ => Err(LineKind::Count),
    }
}

/// `admins LIST`.
fn admins_words(alloc: Global, args: &[&[u8]]) -> Result<Step, LineKind>
    ensures value { Gives result (admins_line (map (λ word. word.now) args.now)) }
    ensures runs { IfOk result IsRunnable }
{
    match args {
        [items] => {
            let items = texts_word(alloc, items)?;
            Ok(Step::Admins { items })
        }
        _ => Err(LineKind::Count),
    }
}

/// `user UID NAME GIDS`.
fn user_words(alloc: Global, args: &[&[u8]]) -> Result<Step, LineKind>
    ensures value { Gives result (user_line (map (λ word. word.now) args.now)) }
    ensures runs { IfOk result IsRunnable }
{
    match args {
        [uid, name, gids] => {
            let uid = number_32(uid)?;
            let gids = gids_word(alloc, gids)?;
            let name = text_word(alloc, name)?;
            Ok(Step::User { uid, name, gids })
        }
        _ => Err(LineKind::Count),
    }
}

/// `group GID NAME`.
fn group_words(alloc: Global, args: &[&[u8]]) -> Result<Step, LineKind>
    ensures value { Gives result (group_line (map (λ word. word.now) args.now)) }
    ensures runs { IfOk result IsRunnable }
{
    match args {
        [gid, name] => {
            let gid = number_32(gid)?;
            let name = text_word(alloc, name)?;
            Ok(Step::Group { gid, name })
        }
        _ => Err(LineKind::Count),
    }
}

fn session(
    alloc: Global,
    id: &[u8],
    uid: &[u8],
    local: &[u8],
    active: &[u8],
) -> Result<Step, LineKind>
    ensures value { Gives result (session_line (id.now ∷ uid.now ∷ local.now ∷ active.now ∷ [])) }
    ensures runs { IfOk result IsRunnable }
{
    let uid = number_32(uid)?;
    let id = text_word(alloc, id)?;
    let local = local_word(local)?;
    let active = active_word(active)?;
    Ok(Step::Session {
        row: Session {
            id,
            uid,
            local,
            active,
        },
    })
}

/// `session ID UID local|remote active|idle`.
fn session_words(alloc: Global, args: &[&[u8]]) -> Result<Step, LineKind>
    ensures value { Gives result (session_line (map (λ word. word.now) args.now)) }
    ensures runs { IfOk result IsRunnable }
{
    match args {
        [id, uid, local, active] => session(alloc, id, uid, local, active),
        _ => Err(LineKind::Count),
    }
}

/// `process PID START UID SESSION`.
fn process_words(alloc: Global, args: &[&[u8]]) -> Result<Step, LineKind>
    ensures value { Gives result (process_line (map (λ word. word.now) args.now)) }
    ensures runs { IfOk result IsRunnable }
{
    match args {
        [pid, start, uid, session] => {
            let pid = number_32(pid)?;
            let start = number_64(start)?;
            let uid = number_32(uid)?;
            let session = session_word(alloc, session)?;
            Ok(Step::Process {
                row: Process {
                    pid,
                    start,
                    uid,
                    session,
                },
            })
        }
        _ => Err(LineKind::Count),
    }
}

/// `gone-process PID START`.
fn gone_process_words(args: &[&[u8]]) -> Result<Step, LineKind>
    ensures value { Gives result (gone_process_line (map (λ word. word.now) args.now)) }
    ensures runs { IfOk result IsRunnable }
{
    match args {
        [pid, start] => {
            let pid = number_32(pid)?;
            let start = number_64(start)?;
            Ok(Step::GoneProcess { pid, start })
        }
        _ => Err(LineKind::Count),
    }
}

/// `gone-session ID`.
fn gone_session_words(alloc: Global, args: &[&[u8]]) -> Result<Step, LineKind>
    ensures value { Gives result (gone_session_line (map (λ word. word.now) args.now)) }
    ensures runs { IfOk result IsRunnable }
{
    match args {
        [id] => {
            let id = text_word(alloc, id)?;
            Ok(Step::GoneSession { id })
        }
        _ => Err(LineKind::Count),
    }
}

/// `gone-action ID`.
fn gone_action_words(alloc: Global, args: &[&[u8]]) -> Result<Step, LineKind>
    ensures value { Gives result (gone_action_line (map (λ word. word.now) args.now)) }
    ensures runs { IfOk result IsRunnable }
{
    match args {
        [id] => {
            let id = id_word(alloc, id)?;
            Ok(Step::GoneAction { id })
        }
        _ => Err(LineKind::Count),
    }
}

/// `reload`.
fn reload_words(args: &[&[u8]]) -> Result<Step, LineKind>
    ensures value { Gives result (reload_line (map (λ word. word.now) args.now)) }
    ensures runs { IfOk result IsRunnable }
{
    match args {
        [] => Ok(Step::Reload),
        _ => Err(LineKind::Count),
    }
}

/// A line that begins with this word, by the words after it.
pub fn draft_step(alloc: Global, word: DraftWord, args: &[&[u8]]) -> Result<Step, LineKind>
    ensures value { Gives result (draft_line word (map (λ word. word.now) args.now)) }
    ensures runs { IfOk result IsRunnable }
{
    match word {
        DraftWord::At => at_words(args),
        DraftWord::Action => action_words(alloc, args),
        DraftWord::Imply => imply_words(alloc, args),
        DraftWord::Owner => owner_words(alloc, args),
        DraftWord::Entry => entry_words(alloc, args),
        DraftWord::Admins => admins_words(alloc, args),
        DraftWord::User => user_words(alloc, args),
        DraftWord::Group => group_words(alloc, args),
        DraftWord::Session => session_words(alloc, args),
        DraftWord::Process => process_words(alloc, args),
        DraftWord::GoneProcess => gone_process_words(args),
        DraftWord::GoneSession => gone_session_words(alloc, args),
        DraftWord::GoneAction => gone_action_words(alloc, args),
        DraftWord::Reload => reload_words(args),
    }
}
