// What is sent unasked: the agent's calls, and the signal Changed.
ghost use Rattle.std.specs.Prelude.{◌≡◌, ◌≤◌, false, [], ◌∷◌, length, map, codes, IsTrue, IfOk};
ghost use Rattle.pk_types.specs.Text.{IsText};
ghost use Rattle.authority_messages.specs.Plain.{is_plain};
ghost use Rattle.authority_model.specs.Cookies.{cookie_text as text_of_cookie};
ghost use Rattle.authority_messages.specs.Values.{string, pairs as pairs_tree, array as array_tree, identity as identity_tree};
ghost use Rattle.authority_messages.specs.Built.{Builds, Rows};
ghost use Rattle.authority_messages.specs.Outgoing.{outgoing, MayBeSent, IsSent};
ghost use Rattle.authority_messages.specs.Messages.{agent_path as path_of_agent, asking as asking_of, begin as begin_of, cancel as cancel_of, changed as changed_of};

use crate::containers::array;
use crate::limits::is_over;
use crate::outgoing::{Member, call_at, signal_of};
use crate::pairs::pairs;
use crate::subjects::identity_items;
use crate::texts::{cookie_text, plain};
use crate::values::{add, add_bytes, add_string, no_values};
use authority_calls::{AUTHORITY, AUTHORITY_PATH, NO_REPLY_EXPECTED};
use authority_model::Cookie;
use dbus_values::{Value, ValueList, WireOut, is_path};
use pk_types::{Identity, NoMemory, Pair, Text};
use std::alloc::Global;

/// The agents' interface of the reference manual.
pub const AGENT: &str = "org.freedesktop.PolicyKit1.AuthenticationAgent";

/// The path of an agent; what is not an object path is written as the root.
fn agent_path(alloc: Global, path: &Text) -> Result<Text, NoMemory>
    ensures path { IfOk result (λ p. p ≡ path_of_agent path.now) }
    ensures known { IsText path.now }
{
    let bytes = path.bytes();
    if is_path(bytes) {
        Text::of_known(alloc, bytes)
    } else {
        plain(alloc, "/")
    }
}

/// A member of the agent at a path.
pub fn of_agent(alloc: Global, path: &Text, member: &str) -> Result<Member, NoMemory>
    requires plain { IsTrue (is_plain member.now) }
    ensures path { IfOk result (λ m. m.path ≡ path_of_agent path.now) }
    ensures interface { IfOk result (λ m. m.interface ≡ AGENT.now) }
    ensures member { IfOk result (λ m. m.member ≡ member.now) }
    ensures known { IsText path.now }
{
    let path = agent_path(alloc, path)?;
    let interface = plain(alloc, AGENT)?;
    let member = plain(alloc, member)?;
    Ok(Member {
        path,
        interface,
        member,
    })
}

/// What an agent is asked, but for the details and those who may answer.
#[derive(Clone, Copy)]
pub struct Dialogue<'a> {
    pub path: &'a Text,
    pub action: &'a Text,
    pub text: &'a Text,
    pub icon: &'a Text,
    pub cookie: Cookie,
}

/// Those who may answer.
fn offered(alloc: Global, identities: &[Identity]) -> Result<Value, NoMemory>
    ensures value { IfOk result (λ v. Builds false 5 v (array_tree (codes "(sa{sv})") (map identity_tree identities.now))) }
{
    let items = identity_items(alloc, identities)?;
    array(alloc, "(sa{sv})", items)
}

/// The arguments of BeginAuthentication.
fn arguments(
    alloc: Global,
    dialogue: Dialogue,
    details: &[Pair],
    identities: &[Identity],
) -> Result<ValueList, NoMemory>
    ensures values { IfOk result (λ body. Rows 5 body (string dialogue.entry.action.now ∷ string dialogue.entry.text.now ∷ string dialogue.entry.icon.now ∷ pairs_tree details.now ∷ string (text_of_cookie dialogue.entry.cookie) ∷ array_tree (codes "(sa{sv})") (map identity_tree identities.now) ∷ [])) }
    ensures action { IsText dialogue.entry.action.now }
    ensures text { IsText dialogue.entry.text.now }
    ensures icon { IsText dialogue.entry.icon.now }
    ensures cookie { IsText (text_of_cookie dialogue.entry.cookie) }
    ensures short { length (text_of_cookie dialogue.entry.cookie) ≤ 53 }
{
    let action = dialogue.action.bytes();
    let text = dialogue.text.bytes();
    let icon = dialogue.icon.bytes();
    let cookie = cookie_text(alloc, dialogue.cookie)?;
    let details = pairs(alloc, details)?;
    let offered = offered(alloc, identities)?;
    let mut body = no_values(alloc);
    add_bytes(alloc, &mut body, action)?;
    add_bytes(alloc, &mut body, text)?;
    add_bytes(alloc, &mut body, icon)?;
    add(&mut body, details)?;
    add_string(alloc, &mut body, &cookie)?;
    add(&mut body, offered)?;
    Ok(body)
}

/// BeginAuthentication, however long it is.
fn asking(
    alloc: Global,
    dialogue: Dialogue,
    details: &[Pair],
    identities: &[Identity],
) -> Result<WireOut, NoMemory>
    ensures message { IfOk result (λ out. outgoing out ≡ asking_of dialogue.entry.path.now dialogue.entry.action.now dialogue.entry.text.now dialogue.entry.icon.now details.now dialogue.entry.cookie identities.now) }
    ensures form { IfOk result (λ out. MayBeSent (outgoing out)) }
    ensures sent { IfOk result (λ out. details.now ≡ [] → identities.now ≡ [] → IsSent (outgoing out)) }
{
    let body = arguments(alloc, dialogue, details, identities)?;
    let member = of_agent(alloc, dialogue.path, "BeginAuthentication")?;
    Ok(call_at(0, member, body))
}

/// BeginAuthentication, to the agent at a path. Where it is too long it has no details and no
/// identities.
pub fn begin(
    alloc: Global,
    dialogue: Dialogue,
    details: &[Pair],
    identities: &[Identity],
) -> Result<WireOut, NoMemory>
    ensures message { IfOk result (λ out. outgoing out ≡ begin_of dialogue.entry.path.now dialogue.entry.action.now dialogue.entry.text.now dialogue.entry.icon.now details.now dialogue.entry.cookie identities.now) }
    ensures form { IfOk result (λ out. IsSent (outgoing out)) }
{
    let whole = asking(alloc, dialogue, details, identities)?;
    if is_over(&whole) {
        asking(alloc, dialogue, &details[..0], &identities[..0])
    } else {
        Ok(whole)
    }
}

/// CancelAuthentication, to the agent at a path.
pub fn cancel(alloc: Global, path: &Text, cookie: Cookie) -> Result<WireOut, NoMemory>
    ensures message { IfOk result (λ out. outgoing out ≡ cancel_of path.now cookie) }
    ensures form { IfOk result (λ out. IsSent (outgoing out)) }
{
    let mut body = no_values(alloc);
    let cookie = cookie_text(alloc, cookie)?;
    add_string(alloc, &mut body, &cookie)?;
    let member = of_agent(alloc, path, "CancelAuthentication")?;
    Ok(call_at(NO_REPLY_EXPECTED, member, body))
}

/// The signal Changed.
pub fn changed(alloc: Global) -> Result<WireOut, NoMemory>
    ensures message { IfOk result (λ out. outgoing out ≡ changed_of) }
    ensures form { IfOk result (λ out. IsSent (outgoing out)) }
{
    let path = plain(alloc, AUTHORITY_PATH)?;
    let interface = plain(alloc, AUTHORITY)?;
    let member = plain(alloc, "Changed")?;
    let from = Member {
        path,
        interface,
        member,
    };
    Ok(signal_of(from, no_values(alloc)))
}
