// The command line of the daemon.
ghost use Rattle.authority_model.specs.declared.journal.TheConstants.{MAX_ENTRIES};
ghost use Rattle.replay_segments.specs.declared.running.TheConstants.{MAX_PER};
ghost use Rattle.std.specs.Prelude.{◌≡◌, ◌≤◌, IfSome};
ghost use Rattle.std.specs.Option.{option_copied, option_map};
ghost use Rattle.polkit_daemon.specs.Commands.{audit_in, beginning_in, beginning_seen, command_of, command_seen, load_in, pipe_in, any_replay_in, replay_in, segments_from, segments_in, serve_in, IsInRange};

use pk_types::{Text, number};
use replay_segments::MAX_PER;
use serve_words::{entries_in, is_plan, is_root, positive};

/// The greatest number of checks of a generated run.
const MAX_CHECKS: u64 = 100_000;

/// A command of the daemon.
#[derive(Clone, Copy)]
pub enum Command<'a> {
    /// `replay [--root DIR] [--entries K]`: runs the scenario on the input. It begins with what the
    /// tree below the root gives, and has a journal of at most so many entries, from 1 to 1,048,576;
    /// without the option of that many.
    Replay {
        root: Option<&'a Text>,
        entries: u64,
    },
    /// `replay [--root DIR] --segments PATH --per K`: runs the scenario on the input as `replay` does, over
    /// a journal whose segments of so many entries, from 1 to 1,048,576, are written to a file at this path.
    Segments {
        root: Option<&'a Text>,
        path: &'a Text,
        per: u64,
    },
    /// `audit [--root DIR] [--entries K]`: runs the scenario on the input as `replay` does, and writes
    /// the audit text of its journal.
    Audit {
        root: Option<&'a Text>,
        entries: u64,
    },
    /// `pipe UID --root DIR [--entries K]`: serves one connection of this user over the input and the
    /// output, from what the tree below the root gives; the journal as for `replay`.
    Pipe {
        uid: u32,
        root: &'a Text,
        entries: u64,
    },
    /// `serve --root DIR --door UID:PATH {--door UID:PATH} --slots N [--stop-after K] [--entries K]
    /// [--live] [--audit]`: serves the connections that come in at the doors, from what the tree below
    /// the root gives. The words behind `serve` name a plan.
    Serve {
        words: &'a [Text],
    },
    /// `load N`: runs so many generated checks, from 1 to 100,000, and writes what they come to.
    Load {
        checks: u32,
    },
}

/// Where a scenario begins: the root of its first draft, if there is one, and its limit of entries.
#[derive(Clone, Copy)]
struct Scenario<'a> {
    root: Option<&'a Text>,
    entries: u64,
}

/// The scenario that the words `[--root DIR] [--entries K]` name.
fn scenario_in(words: &[Text]) -> Option<Scenario<'_>>
    ensures beginning { option_map beginning_seen result ≡ beginning_in words.now }
    ensures range { IfSome result (λ scenario. (1 ≤ scenario.entries) × (scenario.entries ≤ MAX_ENTRIES)) }
{
    match words {
        [option, root, rest @ ..] if option.bytes() == b"--root".as_slice() => {
            if !is_root(root) {
                return None;
            }
            let entries = entries_in(rest)?;
            Some(Scenario {
                root: Some(root),
                entries,
            })
        }
        _ => {
            let entries = entries_in(words)?;
            Some(Scenario {
                root: None,
                entries,
            })
        }
    }
}

/// The replay that the words after `replay` name.
fn replay_in(words: &[Text]) -> Option<Command<'_>>
    ensures command { option_map command_seen result ≡ replay_in words.now }
    ensures range { IfSome result IsInRange }
{
    let Scenario { root, entries } = scenario_in(words)?;
    Some(Command::Replay { root, entries })
}

/// The replay in segments that the words behind its root name, `--segments PATH --per K`.
fn segments_from<'a>(root: Option<&'a Text>, words: &'a [Text]) -> Option<Command<'a>>
    ensures command { option_map command_seen result ≡ segments_from (option_copied root.entry) words.now }
    ensures range { IfSome result IsInRange }
{
    match words {
        [option, path, count, per]
            if option.bytes() == b"--segments".as_slice()
                && !path.bytes().is_empty()
                && count.bytes() == b"--per".as_slice() => {
            let per = positive(per.bytes(), MAX_PER)?;
            Some(Command::Segments { root, path, per })
        }
        _ => None,
    }
}

/// The replay in segments that the words after `replay` name.
fn segments_in(words: &[Text]) -> Option<Command<'_>>
    ensures command { option_map command_seen result ≡ segments_in words.now }
    ensures range { IfSome result IsInRange }
{
    match words {
        [option, root, rest @ ..] if option.bytes() == b"--root".as_slice() => {
            if !is_root(root) {
                return None;
            }
            segments_from(Some(root), rest)
        }
        _ => segments_from(None, words),
    }
}

/// The replay that the words after `replay` name, of either kind.
fn any_replay_in(words: &[Text]) -> Option<Command<'_>>
    ensures command { option_map command_seen result ≡ any_replay_in words.now }
    ensures range { IfSome result IsInRange }
{
    match replay_in(words) {
        Some(command) => Some(command),
        None => segments_in(words),
    }
}

/// The audit that the words after `audit` name.
fn audit_in(words: &[Text]) -> Option<Command<'_>>
    ensures command { option_map command_seen result ≡ audit_in words.now }
    ensures range { IfSome result IsInRange }
{
    let Scenario { root, entries } = scenario_in(words)?;
    Some(Command::Audit { root, entries })
}

/// The pipe that the words after `pipe` name.
fn pipe_in(words: &[Text]) -> Option<Command<'_>>
    ensures command { option_map command_seen result ≡ pipe_in words.now }
    ensures range { IfSome result IsInRange }
{
    match words {
        [uid, option, root, rest @ ..] if option.bytes() == b"--root".as_slice() => {
            let uid = number(uid.bytes())?;
            if !is_root(root) {
                return None;
            }
            let entries = entries_in(rest)?;
            Some(Command::Pipe { uid, root, entries })
        }
        _ => None,
    }
}

/// The generated run that the words after `load` name.
fn load_in(words: &[Text]) -> Option<Command<'_>>
    ensures command { option_map command_seen result ≡ load_in words.now }
    ensures range { IfSome result IsInRange }
{
    match words {
        [number] => {
            let checks = positive(number.bytes(), MAX_CHECKS)?;
            Some(Command::Load {
                checks: checks as u32,
            })
        }
        _ => None,
    }
}

/// The service that the words after `serve` name.
fn serve_in(words: &[Text]) -> Option<Command<'_>>
    ensures command { option_map command_seen result ≡ serve_in words.now }
    ensures range { IfSome result IsInRange }
{
    if is_plan(words) {
        Some(Command::Serve { words })
    } else {
        None
    }
}

impl Command<'_> {
    /// The command that the words name, and `None` exactly where they are not in the grammar.
    pub fn read(words: &[Text]) -> Option<Command<'_>>
        ensures command { option_map command_seen result ≡ command_of words.now }
        ensures range { IfSome result IsInRange }
    {
        let (word, rest) = words.split_first()?;
        if word.bytes() == b"replay".as_slice() {
            return any_replay_in(rest);
        }
        if word.bytes() == b"audit".as_slice() {
            return audit_in(rest);
        }
        if word.bytes() == b"pipe".as_slice() {
            return pipe_in(rest);
        }
        if word.bytes() == b"load".as_slice() {
            return load_in(rest);
        }
        if word.bytes() == b"serve".as_slice() {
            return serve_in(rest);
        }
        None
    }
}
