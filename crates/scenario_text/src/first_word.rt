// The words that a line begins with.
ghost use Rattle.std.specs.Prelude.{◌≡◌};
ghost use Rattle.scenario_text.specs.Lines.{draft_word_of, caller_word_of, first_word_of};

/// The first word of a line that changes the draft or the moment.
#[derive(Clone, Copy, Debug, PartialEq, Eq)]
pub enum DraftWord {
    At,
    Action,
    Imply,
    Owner,
    Entry,
    Admins,
    User,
    Group,
    Session,
    Process,
    GoneProcess,
    GoneSession,
    GoneAction,
    Reload,
}

impl DraftWord {
    /// The word that these bytes spell, and `None` exactly for other bytes.
    fn read(word: &[u8]) -> Option<DraftWord>
        ensures word { result ≡ draft_word_of word.now }
    {
        if word == b"at".as_slice() {
            Some(DraftWord::At)
        } else if word == b"action".as_slice() {
            Some(DraftWord::Action)
        } else if word == b"imply".as_slice() {
            Some(DraftWord::Imply)
        } else if word == b"owner".as_slice() {
            Some(DraftWord::Owner)
        } else if word == b"entry".as_slice() {
            Some(DraftWord::Entry)
        } else if word == b"admins".as_slice() {
            Some(DraftWord::Admins)
        } else if word == b"user".as_slice() {
            Some(DraftWord::User)
        } else if word == b"group".as_slice() {
            Some(DraftWord::Group)
        } else if word == b"session".as_slice() {
            Some(DraftWord::Session)
        } else if word == b"process".as_slice() {
            Some(DraftWord::Process)
        } else if word == b"gone-process".as_slice() {
            Some(DraftWord::GoneProcess)
        } else if word == b"gone-session".as_slice() {
            Some(DraftWord::GoneSession)
        } else if word == b"gone-action".as_slice() {
            Some(DraftWord::GoneAction)
        } else if word == b"reload".as_slice() {
            Some(DraftWord::Reload)
        } else {
            None
        }
    }
}

/// The first word of a line that makes an event of a connection.
#[derive(Clone, Copy, Debug, PartialEq, Eq)]
pub enum CallerWord {
    Peer,
    Depart,
    Announce,
    Check,
    Cancel,
    Register,
    Unregister,
    Respond,
    Return,
    Dismiss,
    Fail,
    Actions,
    Grants,
    Revoke,
    RevokeId,
}

impl CallerWord {
    /// The word that these bytes spell, and `None` exactly for other bytes.
    fn read(word: &[u8]) -> Option<CallerWord>
        ensures word { result ≡ caller_word_of word.now }
    {
        if word == b"peer".as_slice() {
            Some(CallerWord::Peer)
        } else if word == b"depart".as_slice() {
            Some(CallerWord::Depart)
        } else if word == b"announce".as_slice() {
            Some(CallerWord::Announce)
        } else if word == b"check".as_slice() {
            Some(CallerWord::Check)
        } else if word == b"cancel".as_slice() {
            Some(CallerWord::Cancel)
        } else if word == b"register".as_slice() {
            Some(CallerWord::Register)
        } else if word == b"unregister".as_slice() {
            Some(CallerWord::Unregister)
        } else if word == b"respond".as_slice() {
            Some(CallerWord::Respond)
        } else if word == b"return".as_slice() {
            Some(CallerWord::Return)
        } else if word == b"dismiss".as_slice() {
            Some(CallerWord::Dismiss)
        } else if word == b"fail".as_slice() {
            Some(CallerWord::Fail)
        } else if word == b"actions".as_slice() {
            Some(CallerWord::Actions)
        } else if word == b"grants".as_slice() {
            Some(CallerWord::Grants)
        } else if word == b"revoke".as_slice() {
            Some(CallerWord::Revoke)
        } else if word == b"revoke-id".as_slice() {
            Some(CallerWord::RevokeId)
        } else {
            None
        }
    }
}

/// The first word of a line that is neither empty nor a comment.
#[derive(Clone, Copy, Debug, PartialEq, Eq)]
pub enum FirstWord {
    Draft(DraftWord),
    Caller(CallerWord),
}

impl FirstWord {
    /// The first word that these bytes spell, and `None` exactly for other bytes.
    pub fn read(word: &[u8]) -> Option<FirstWord>
        ensures word { result ≡ first_word_of word.now }
    {
        match DraftWord::read(word) {
            Some(word) => Some(FirstWord::Draft(word)),
            None => match CallerWord::read(word) {
                Some(word) => Some(FirstWord::Caller(word)),
                None => None,
            },
        }
    }
}
