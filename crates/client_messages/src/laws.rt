// Laws that tie the two sides: each reads what the other one wrote. Each is the contract of a function
// that does nothing.
ghost use Rattle.std.specs.Prelude.{◌≡◌, ◌≢◌, ◌<◌, ◌^◌, ℕ, Bool, List, [], Some, IsSome, true, false};
ghost use Rattle.pk_types.specs.Text.{IsText};
ghost use Rattle.pk_types.specs.declared.values.Identity.{Identity};
ghost use Rattle.pk_types.specs.declared.values.Pair.{Pair};
ghost use Rattle.dbus_values.specs.Form.{Message, IsMessage, shown_of};
ghost use Rattle.dbus_values.specs.Next.{Seen};
ghost use Rattle.authority_model.specs.declared.event.Call.{Call};
ghost use Rattle.authority_model.specs.declared.event.Event.TheVariants as event;
ghost use Rattle.authority_model.specs.declared.load.Loaded.{Loaded};
ghost use Rattle.authority_model.specs.declared.message.Answer.{Answer};
ghost use Rattle.authority_model.specs.declared.message.Message.TheVariants as message;
ghost use Rattle.authority_model.specs.declared.verdict.Cookie.{Cookie};
ghost use Rattle.authority_model.specs.Cookies.{cookie_text};
ghost use Rattle.authority_model.specs.Words.{Bytes};
ghost use Rattle.authority_calls.specs.Events.{event_of};
ghost use Rattle.authority_messages.specs.Outgoing.{under};
ghost use Rattle.authority_messages.specs.Messages.{is_over, message_for};
ghost use Rattle.client_messages.specs.declared.agent.AgentReply.{AgentReply};
ghost use Rattle.client_messages.specs.declared.answer.ClientAnswer.TheVariants as answer;
ghost use Rattle.client_messages.specs.Calls.{method_of, call_for};
ghost use Rattle.client_messages.specs.Answers.{answer_of};
ghost use Rattle.client_messages.specs.Agents.{begin_of, reply_for};
ghost use Rattle.client_messages.specs.Others.{tells_nothing, is_other};
ghost use Rattle.client_messages.specs.Told.{CallInRange, details_in, understood, AnswerInRange, told_of, event_for};

/// What a client writes for a call asks the authority that call, and that a reply is wanted. All of
/// the call is kept; only an agent's path that is not an object path is out of form.
pub fn a_call_is_understood()
    ensures asked { (said : Call) (serial : ℕ) → IsSome (method_of said) → is_over (call_for said) ≡ false → CallInRange said → event_of (shown_of (under serial (call_for said))) ≡ event.Call serial false (understood said) }
{}

/// A call without details may be written: it is not too long.
pub fn a_call_without_details_is_short()
    ensures short { (said : Call) → IsSome (method_of said) → CallInRange said → details_in said ≡ [] → is_over (call_for said) ≡ false }
{}

/// What the authority writes for an answer tells the client that answer: a verdict with all its
/// details in their order, that the call was done, a name, or the name of the error. A list is
/// another body, and in place of what is too long stands an error.
pub fn an_answer_is_told()
    ensures told { (loads : List Loaded) (said : Answer) (answered serial : ℕ) → AnswerInRange said → answer_of answered (shown_of (under serial (message_for loads (message.Reply answered said)))) ≡ told_of loads answered said }
    ensures other { (m : Seen) (answered serial : ℕ) → m.reply_serial ≡ Some answered → answered ≢ serial → answer_of serial m ≡ answer.Other }
{}

/// A message tells a client nothing of its call exactly where it does not reply to it, or is a return
/// with another body, or with a text of more than 65,535 bytes in its body.
pub fn other_is_nothing_else()
    ensures exact { (big : Bool) (m : Message) (serial : ℕ) → IsMessage big m → is_other (answer_of serial (shown_of m)) ≡ tells_nothing serial (shown_of m) }
{}

/// What the authority writes to ask an agent tells it the action and the cookie, under the serial to
/// which it replies, also where the question is cut because it would be too long.
pub fn a_question_is_read()
    ensures asked { (loads : List Loaded) (path action text icon : Bytes) (details : List Pair) (cookie : Cookie) (identities : List Identity) (serial : ℕ) → IsText action → cookie.serial < 2 ^ 64
        → begin_of (shown_of (under serial (message_for loads (message.Begin path action text icon details cookie identities)))) ≡ Some (record { serial = serial; action = action; cookie = cookie_text cookie }) }
{}

/// What an agent replies is the event of a return, or of an error with its name, for the message that
/// it replies to.
pub fn a_reply_is_an_event()
    ensures replied { (reply : AgentReply) (to serial : ℕ) → event_of (shown_of (under serial (reply_for reply to))) ≡ event_for reply to }
{}
