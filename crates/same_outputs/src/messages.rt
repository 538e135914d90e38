// What is sent, and to whom.
use crate::same::Same;
use authority_model::{Message, Output};

impl Same for Message {
    fn is_same(&self, other: &Message) -> bool {
        match (self, other) {
            (
                Message::Reply { serial, answer },
                Message::Reply {
                    serial: its_serial,
                    answer: its_answer,
                },
            ) => serial == its_serial && answer.is_same(its_answer),
            (
                Message::Begin {
                    path,
                    action,
                    text,
                    icon,
                    details,
                    cookie,
                    identities,
                },
                Message::Begin {
                    path: its_path,
                    action: its_action,
                    text: its_text,
                    icon: its_icon,
                    details: its_details,
                    cookie: its_cookie,
                    identities: its_identities,
                },
            ) => {
                path.is_same(its_path)
                    && action.is_same(its_action)
                    && text.is_same(its_text)
                    && icon.is_same(its_icon)
                    && details.is_same(its_details)
                    && cookie == its_cookie
                    && identities.is_same(its_identities)
            }
            (
                Message::CancelBegin { path, cookie },
                Message::CancelBegin {
                    path: its_path,
                    cookie: its_cookie,
                },
            ) => path.is_same(its_path) && cookie == its_cookie,
            (Message::Changed, Message::Changed)
            | (Message::LoadWanted, Message::LoadWanted)
            | (Message::StopWanted, Message::StopWanted) => true,
            _ => false,
        }
    }
}

impl Same for Output {
    fn is_same(&self, other: &Output) -> bool {
        self.to == other.to && self.message.is_same(&other.message)
    }
}
