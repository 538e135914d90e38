// The line that answers with an output.
ghost use Rattle.std.specs.Prelude.{◌≡◌, ◌++◌, codes, length, string_bytes, IfOk, OnOk};
ghost use Rattle.std.specs.Fmt.{decimal};
ghost use Rattle.authority_model.specs.Cookies.{cookie_text};
ghost use Rattle.scenario_text.specs.Escapes.{escaped, identities_text};
ghost use Rattle.scenario_text.specs.Answers.{action_count, listed_actions, answer_words, words_line, counted_line, answer_line, output_line};

use crate::escape::{push_escaped, push_grants, push_identities};
use crate::verdict::{push_cause, push_verdict};
use authority_model::{Answer, Cookie, History, Loaded, Message, Output};
use pk_types::{ByteList, Identity, List, NoMemory, Text};
use std::alloc::{AllocError, Global};

/// How many actions the load with this number has, and 0 for load 0 and for the number of no load.
fn action_count(loads: &[Loaded], load: u32) -> usize
    ensures count { result ≡ action_count loads.now load }
{
    if load == 0 {
        return 0;
    }
    match loads.get(load as usize - 1) {
        Some(loaded) => loaded.policy.actions.len(),
        None => 0,
    }
}

/// How many actions the load has that a message lists, and 0 where it lists none.
fn listed_actions(loads: &[Loaded], message: &Message) -> usize
    ensures count { result ≡ listed_actions loads.now message.now }
{
    match message {
        Message::Reply {
            serial: _,
            answer: Answer::Actions { load, locale: _ },
        } => action_count(loads, *load),
        _ => 0,
    }
}

/// Adds the words of an answer, which lists so many actions where it lists some.
fn push_answer(
    alloc: Global,
    text: &mut String,
    actions: usize,
    answer: &Answer,
) -> Result<(), AllocError>
    ensures ok { OnOk result (string_bytes text.new ≡ string_bytes text.old ++ answer_words actions answer.now) }
{
    match answer {
        Answer::Verdict(verdict) => push_verdict(alloc, text, verdict),
        Answer::Done => text.push_str("done"),
        Answer::Name(name) => {
            text.push_str("name ")?;
            push_escaped(text, name.bytes())
        }
        Answer::Actions { load: _, locale: _ } => write!(text, "actions {actions}"),
        Answer::Grants(rows) => {
            text.push_str("grants ")?;
            push_grants(text, rows.as_slice())
        }
        Answer::Refused(cause) => {
            text.push_str("error ")?;
            push_cause(text, *cause)
        }
    }
}

fn push_reply(
    alloc: Global,
    text: &mut String,
    actions: usize,
    to: u32,
    serial: u32,
    answer: &Answer,
) -> Result<(), AllocError>
    ensures ok { OnOk result (string_bytes text.new ≡ string_bytes text.old ++ words_line (decimal to) (decimal serial) (answer_words actions answer.now)) }
{
    write!(text, "{to} {serial} ")?;
    push_answer(alloc, text, actions, answer)?;
    text.push_str("\n")
}

/// Adds an action and those who may answer, each after a space.
fn push_asked(text: &mut String, action: &Text, identities: &[Identity]) -> Result<(), AllocError>
    ensures ok { OnOk result (string_bytes text.new ≡ string_bytes text.old ++ (codes " " ++ (escaped action.now ++ (codes " " ++ identities_text identities.now)))) }
{
    text.push_str(" ")?;
    push_escaped(text, action.bytes())?;
    text.push_str(" ")?;
    push_identities(text, identities)
}

/// Adds what a Begin shows: its serial, its cookie, its action and those who may answer.
fn push_begin_words(
    text: &mut String,
    serial: u32,
    cookie: Cookie,
    action: &Text,
    identities: &[Identity],
) -> Result<(), AllocError>
    ensures ok { OnOk result (string_bytes text.new ≡ string_bytes text.old ++ (decimal serial ++ (codes " " ++ (cookie_text cookie ++ (codes " " ++ (escaped action.now ++ (codes " " ++ identities_text identities.now))))))) }
{
    write!(text, "{serial} ")?;
    cookie.push_text(text)?;
    push_asked(text, action, identities)
}

fn push_begin(
    text: &mut String,
    to: u32,
    serial: u32,
    cookie: Cookie,
    action: &Text,
    identities: &[Identity],
) -> Result<(), AllocError>
    ensures ok { OnOk result (string_bytes text.new ≡ string_bytes text.old ++ words_line (decimal to) (codes "begin") (decimal serial ++ (codes " " ++ (cookie_text cookie ++ (codes " " ++ (escaped action.now ++ (codes " " ++ identities_text identities.now))))))) }
{
    write!(text, "{to} begin ")?;
    push_begin_words(text, serial, cookie, action, identities)?;
    text.push_str("\n")
}

fn push_end(text: &mut String, to: u32, cookie: Cookie) -> Result<(), AllocError>
    ensures ok { OnOk result (string_bytes text.new ≡ string_bytes text.old ++ words_line (decimal to) (codes "end") (cookie_text cookie)) }
{
    write!(text, "{to} end ")?;
    cookie.push_text(text)?;
    text.push_str("\n")
}

/// Adds the line of a message to a connection, which is the one with this serial among those sent to
/// it, and lists so many actions where it lists some.
fn push_message(
    alloc: Global,
    text: &mut String,
    actions: usize,
    to: u32,
    serial: u32,
    message: &Message,
) -> Result<(), AllocError>
    ensures ok { OnOk result (string_bytes text.new ≡ string_bytes text.old ++ counted_line actions to serial message.now) }
{
    match message {
        Message::Reply {
            serial: answered,
            answer,
        } => push_reply(alloc, text, actions, to, *answered, answer),
        Message::Begin {
            path: _,
            action,
            text: _,
            icon: _,
            details: _,
            cookie,
            identities,
        } => push_begin(text, to, serial, *cookie, action, identities.as_slice()),
        Message::CancelBegin { path: _, cookie } => push_end(text, to, *cookie),
        Message::Changed => write!(text, "{to} changed\n"),
        Message::LoadWanted => Ok(()),
        Message::StopWanted => Ok(()),
    }
}

/// The line of an output, which lists so many actions where it lists some.
fn line_of(
    alloc: Global,
    output: &Output,
    actions: usize,
    serial: u32,
) -> Result<ByteList, NoMemory>
    ensures line { IfOk result (λ line. line ≡ answer_line output.now actions serial) }
{
    let mut line = String::new(alloc);
    push_message(
        alloc,
        &mut line,
        actions,
        output.to,
        serial,
        &output.message,
    )?;
    Ok(List::from_vec(line.into_bytes()))
}

/// The line of an output, ended by LF, where the load whose actions it lists has so many of them.
/// `serial` is its number among the outputs to its connection, counted from 1, which
/// BeginAuthentication shows. An output that lists no actions has the same line for each number.
///
/// A request to the loader has no bytes.
///
/// # Errors
/// `NoMemory` alone.
pub fn answer_line(
    alloc: Global,
    output: &Output,
    actions: u32,
    serial: u32,
) -> Result<ByteList, NoMemory>
    ensures line { IfOk result (λ line. line ≡ answer_line output.now actions serial) }
{
    line_of(alloc, output, actions as usize, serial)
}

/// The line of an output of a history, ended by LF. `serial` is its number among the outputs to its
/// connection, counted from 1, which BeginAuthentication shows.
///
/// A request to the loader has no bytes.
///
/// # Errors
/// `NoMemory` alone.
pub fn answer_text(
    alloc: Global,
    output: &Output,
    history: &History,
    serial: u32,
) -> Result<ByteList, NoMemory>
    ensures line { IfOk result (λ line. line ≡ output_line output.now history.now serial) }
{
    let actions = listed_actions(history.loads.as_slice(), &output.message);
    line_of(alloc, output, actions, serial)
}
