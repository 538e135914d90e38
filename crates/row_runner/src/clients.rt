// The clients: what a reply tells, what an agent is asked and replies, and the words of the programs.
use crate::messages::whole;
use crate::row::{Row, Wrong};
use client_commands::{AgentPlan, CheckPlan, WordsFault, read_agent, read_check};
use client_messages::{AgentReply, ClientAnswer, agent_reply, answer_of, begin_of};
use dbus_values::WireMessage;
use std::fmt::Display;

fn show_answer(row: &mut Row, answer: &ClientAnswer) {
    match answer {
        ClientAnswer::Verdict {
            yes,
            challenge,
            details,
        } => {
            row.word("Verdict");
            row.field("yes", yes);
            row.field("challenge", challenge);
            row.pairs("details", details.as_slice());
        }
        ClientAnswer::Done => row.word("Done"),
        ClientAnswer::Name(name) => row.named("Name", name.bytes()),
        ClientAnswer::ErrorNamed(name) => row.named("ErrorNamed", name.bytes()),
        ClientAnswer::Other => row.word("Other"),
    }
}

fn told_in(row: &mut Row, message: &WireMessage, serial: u32) {
    match answer_of(row.alloc, message, serial) {
        Ok(answer) => show_answer(row, &answer),
        Err(_) => row.mark(Wrong::NoMemory),
    }
}

/// `told SERIAL BYTES`: what a message tells a client of its call with this serial.
pub fn told(row: &mut Row) {
    let serial = row.number_32();
    match whole(row) {
        Some(message) => told_in(row, &message, serial),
        None => row.word("NoMessage"),
    }
}

fn question_in(row: &mut Row, message: &WireMessage) {
    match begin_of(row.alloc, message) {
        Ok(Some(begin)) => {
            row.field("serial", &begin.serial);
            row.named("action", begin.action.bytes());
            row.named("cookie", begin.cookie.bytes());
        }
        Ok(None) => row.word("None"),
        Err(_) => row.mark(Wrong::NoMemory),
    }
}

/// `question BYTES`: what a message asks an agent.
pub fn question(row: &mut Row) {
    match whole(row) {
        Some(message) => question_in(row, &message),
        None => row.word("NoMessage"),
    }
}

fn reply(row: &mut Row) -> AgentReply {
    match row.bytes() {
        b"Return" => AgentReply::Return,
        b"Failed" => AgentReply::Failed,
        b"Cancelled" => AgentReply::Cancelled,
        _ => {
            row.mark(Wrong::Word);
            AgentReply::Failed
        }
    }
}

/// `agent_reply SERIAL ANSWERED REPLY`
pub fn agent_reply_bytes(row: &mut Row) {
    let serial = row.number_32();
    let answered = row.number_32();
    let reply = reply(row);
    if serial == 0 || answered == 0 {
        return row.mark(Wrong::Number);
    }
    match agent_reply(row.alloc, reply, answered, serial) {
        Ok(bytes) => row.quote(bytes.as_slice()),
        Err(_) => row.mark(Wrong::NoMemory),
    }
}

/// The first line of what a fault says.
fn refuse_line<T: Display>(row: &mut Row, fault: &T) {
    row.word("Err");
    match format!(in row.alloc; "{fault}") {
        Ok(told) => row.quote(told.as_str().lines().next().unwrap_or("").as_bytes()),
        Err(_) => row.mark(Wrong::NoMemory),
    }
}

fn refuse_words(row: &mut Row, fault: &WordsFault) {
    match fault {
        WordsFault::NoMemory => row.mark(Wrong::NoMemory),
        _ => refuse_line(row, fault),
    }
}

fn show_check(row: &mut Row, plan: &CheckPlan) {
    row.word("Ok");
    row.field("uid", &plan.uid);
    row.named("path", plan.path.bytes());
    row.named("action", plan.action.bytes());
    row.field("pid", &plan.pid);
    row.field("start", &plan.start);
    row.field("ask", &plan.ask);
}

/// `pkcheck_words WORD ..`
pub fn pkcheck_words(row: &mut Row) {
    let words = row.text_list();
    match read_check(row.alloc, words.as_slice()) {
        Ok(plan) => show_check(row, &plan),
        Err(fault) => refuse_words(row, &fault),
    }
}

fn show_agent(row: &mut Row, plan: &AgentPlan) {
    row.word("Ok");
    row.field("uid", &plan.uid);
    row.named("path", plan.path.bytes());
    row.named("helper", plan.helper.bytes());
    row.named("session", plan.session.bytes());
    row.named("rules", plan.rules.bytes());
    row.field("count", &plan.count);
}

/// `agent_words WORD ..`
pub fn polkit_agent_words(row: &mut Row) {
    let words = row.text_list();
    match read_agent(row.alloc, words.as_slice()) {
        Ok(plan) => show_agent(row, &plan),
        Err(fault) => refuse_words(row, &fault),
    }
}
