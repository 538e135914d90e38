// What an entry costs: its event, and the messages that the event causes.
ghost use Rattle.std.specs.Prelude.{◌≡◌, ◌^◌, ◌≤◌};
ghost use Rattle.authority_model.specs.Costs.{cost_of_answer, cost_of_call, cost_of_entry, cost_of_event, cost_of_key, cost_of_message, cost_of_output, cost_of_reason, cost_of_row, cost_of_subject, cost_of_verdict};

use crate::cost::Cost;
use crate::counted::Counted;
use authority_model::{
    Answer, Call, Entry, Event, GrantRow, Key, Message, Output, Reason, Verdict,
};
use pk_types::Subject;

/// What an entry of a journal costs, in counted bytes: 64, 64 for each output and for each pair,
/// identity and grant row in its event and its outputs, and the bytes of their texts. A cost above
/// `MAX_COST` counts as `MAX_COST`.
///
/// It takes no memory.
pub fn cost_of_entry(entry: &Entry) -> u64
    ensures cost { result ≡ cost_of_entry entry.now }
    ensures capped { result ≤ 2 ^ 62 }
{
    let held = entry.event.cost().plus(entry.outputs.cost());
    Cost::of_rows(1).plus(held).bytes()
}

impl Counted for Event {
    ghost cost = { cost_of_event };

    fn cost(&self) -> Cost {
        match self {
            Event::Call { call, .. } => call.cost(),
            Event::AgentError { name, .. } => name.cost(),
            Event::Connect { .. }
            | Event::Returned { .. }
            | Event::Passed
            | Event::Depart
            | Event::Load { .. }
            | Event::LoadFailed { .. }
            | Event::Stop
            | Event::Collect { .. } => Cost::NOTHING,
        }
    }
}

impl Counted for Call {
    ghost cost = { cost_of_call };

    fn cost(&self) -> Cost {
        match self {
            Call::Announce { .. } | Call::Reload | Call::Wrong { .. } => Cost::NOTHING,
            Call::Check {
                subject,
                action,
                details,
                cancel,
                ..
            } => subject
                .cost()
                .plus(action.cost())
                .plus(details.cost())
                .plus(cancel.cost()),
            Call::Cancel { cancel } => cancel.cost(),
            Call::Register {
                subject,
                locale,
                path,
            } => subject.cost().plus(locale.cost()).plus(path.cost()),
            Call::Unregister { subject, path } => subject.cost().plus(path.cost()),
            Call::Respond { cookie, .. } => cookie.cost().plus(Cost::of_rows(1)),
            Call::EnumerateActions { locale } => locale.cost(),
            Call::EnumerateGrants { subject } | Call::RevokeAll { subject } => subject.cost(),
            Call::RevokeOne { id } => id.cost(),
        }
    }
}

impl Counted for Subject {
    ghost cost = { cost_of_subject };

    fn cost(&self) -> Cost {
        match self {
            Subject::Process { .. } => Cost::NOTHING,
            Subject::Session { id } => id.cost(),
            Subject::BusName { name } => name.cost(),
        }
    }
}

impl Counted for Output {
    ghost cost = { cost_of_output };

    fn cost(&self) -> Cost {
        Cost::of_rows(1).plus(self.message.cost())
    }
}

impl Counted for Message {
    ghost cost = { cost_of_message };

    fn cost(&self) -> Cost {
        match self {
            Message::Reply { answer, .. } => answer.cost(),
            Message::Begin {
                path,
                action,
                text,
                icon,
                details,
                identities,
                ..
            } => path
                .cost()
                .plus(action.cost())
                .plus(text.cost())
                .plus(icon.cost())
                .plus(details.cost())
                .plus(Cost::of_rows(identities.len())),
            Message::CancelBegin { path, .. } => path.cost(),
            Message::Changed | Message::LoadWanted | Message::StopWanted => Cost::NOTHING,
        }
    }
}

impl Counted for Answer {
    ghost cost = { cost_of_answer };

    fn cost(&self) -> Cost {
        match self {
            Answer::Verdict(verdict) => verdict.cost(),
            Answer::Name(name) => name.cost(),
            Answer::Actions { locale, .. } => locale.cost(),
            Answer::Grants(rows) => rows.cost(),
            Answer::Done | Answer::Refused(_) => Cost::NOTHING,
        }
    }
}

impl Counted for Verdict {
    ghost cost = { cost_of_verdict };

    fn cost(&self) -> Cost {
        self.reason.cost().plus(self.pairs.cost())
    }
}

impl Counted for Reason {
    ghost cost = { cost_of_reason };

    fn cost(&self) -> Cost {
        match self {
            Reason::Imply(id) => id.cost(),
            _ => Cost::NOTHING,
        }
    }
}

impl Counted for GrantRow {
    ghost cost = { cost_of_row };

    fn cost(&self) -> Cost {
        Cost::of_rows(1)
            .plus(self.action.cost())
            .plus(self.key.cost())
    }
}

impl Counted for Key {
    ghost cost = { cost_of_key };

    fn cost(&self) -> Cost {
        match self {
            Key::Process { .. } => Cost::NOTHING,
            Key::Session { id, .. } => id.cost(),
        }
    }
}
