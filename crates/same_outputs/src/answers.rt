// What calls are answered.
use crate::same::Same;
use authority_model::{Answer, Reason, Verdict};

impl Same for Reason {
    fn is_same(&self, other: &Reason) -> bool {
        match self {
            Reason::Root => matches!(other, Reason::Root),
            Reason::Default(category) => matches!(other, Reason::Default(it) if it == category),
            Reason::Entry(place) => matches!(other, Reason::Entry(it) if it == place),
            Reason::Grant(id) => matches!(other, Reason::Grant(it) if it == id),
            Reason::Imply(action) => matches!(other, Reason::Imply(it) if it.is_same(action)),
            Reason::Challenge => matches!(other, Reason::Challenge),
            Reason::Dismissed => matches!(other, Reason::Dismissed),
            Reason::AgentGone => matches!(other, Reason::AgentGone),
            Reason::SubjectGone => matches!(other, Reason::SubjectGone),
            Reason::ActionGone => matches!(other, Reason::ActionGone),
            Reason::IdentityGone => matches!(other, Reason::IdentityGone),
        }
    }
}

impl Same for Verdict {
    fn is_same(&self, other: &Verdict) -> bool {
        self.yes == other.yes
            && self.challenge == other.challenge
            && self.reason.is_same(&other.reason)
            && self.keep == other.keep
            && self.grant == other.grant
            && self.pairs.is_same(&other.pairs)
    }
}

impl Same for Answer {
    fn is_same(&self, other: &Answer) -> bool {
        match self {
            Answer::Verdict(verdict) => {
                matches!(other, Answer::Verdict(it) if it.is_same(verdict))
            }
            Answer::Done => matches!(other, Answer::Done),
            Answer::Name(name) => matches!(other, Answer::Name(it) if it.is_same(name)),
            Answer::Actions { load, locale } => {
                matches!(other, Answer::Actions { load: it, locale: its } if it == load && its.is_same(locale))
            }
            Answer::Grants(grants) => matches!(other, Answer::Grants(it) if it.is_same(grants)),
            Answer::Refused(cause) => matches!(other, Answer::Refused(it) if it == cause),
        }
    }
}
