// The definitions follow a history item by item; these laws say that each finds what is found by
// looking back over the history as a whole.
ghost use Rattle.std.specs.Prelude.{ℕ, ◌≡◌, ◌↔◌, true, List, Some, map};
ghost use Rattle.pk_types.specs.declared.values.Identity.{Identity};
ghost use Rattle.authority_model.specs.declared.journal.Item.{Item};
ghost use Rattle.authority_model.specs.declared.key.Key.{Key};
ghost use Rattle.authority_model.specs.declared.pending.Agent.{Agent};
ghost use Rattle.authority_model.specs.declared.pending.Pending.{Pending};
ghost use Rattle.authority_model.specs.declared.process_id.ProcessId.{ProcessId};
ghost use Rattle.authority_model.specs.declared.verdict.GrantRow.{GrantRow};
ghost use Rattle.authority_model.specs.Words.{Bytes};
ghost use Rattle.authority_model.specs.Lists.{Has};
ghost use Rattle.authority_model.specs.Peers.{announced, live, uid_of};
ghost use Rattle.authority_model.specs.Agents.{in_force};
ghost use Rattle.authority_model.specs.Challenges.{pending};
ghost use Rattle.authority_model.specs.Deciding.{serves};
ghost use Rattle.authority_model.specs.Grants.{kept, made};
ghost use Rattle.authority_model.specs.Legal.{Legal};
ghost use Rattle.authority_model.specs.LookBack.{InForce, IsAnnounced, IsAnswered, IsLive, IsLiveGrant, IsPending, IsUid, MadeCount, unanswered};

/// The user of a connection is that of its first Connect. It lives until it departs after that, and
/// its process is the last that it announced with success.
pub fn connections_found()
    ensures user { (past : List Item) (c uid : ℕ) → (uid_of past c ≡ Some uid) ↔ IsUid past c uid }
    ensures life { (past : List Item) (c : ℕ) → (live past c ≡ true) ↔ IsLive past c }
    ensures process { (past : List Item) (c : ℕ) (p : ProcessId) → (announced past c ≡ Some p) ↔ IsAnnounced past c p }
{}

/// An agent is in force where some call registered it, while its subject had no other agent, and
/// nothing ended the registration since.
pub fn registrations_found()
    ensures found { (past : List Item) (a : Agent) → Has (in_force past) a ↔ InForce past a }
{}

/// A challenge is pending where some check opened it and nothing closed it since.
pub fn challenges_found()
    ensures found { (past : List Item) → Legal past → (o : Pending) → Has (map unanswered (pending past)) o ↔ IsPending past o }
{}

/// A pending challenge has the answer of the first response to it, by uid 0, with its cookie and an
/// identity that was offered.
pub fn answers_found()
    ensures found { (past : List Item) → Legal past → (ch : Pending) → Has (pending past) ch → (identity : Identity) → (ch.answered ≡ Some identity) ↔ IsAnswered past (unanswered ch) identity }
{}

/// A temporary authorization is live where the return of an answered challenge made it less than
/// 300 seconds ago, and nothing ended it since.
pub fn grants_found()
    ensures found { (past : List Item) → Legal past → (number : ℕ) (key : Key) (action : Bytes) (t : ℕ) → ((row : GrantRow) × Has (kept past) row × (serves key action t row ≡ true) × (row.id ≡ number)) ↔ IsLiveGrant past number key action t }
{}

/// The number of a temporary authorization counts the temporary authorizations that were made
/// before it.
pub fn grants_counted()
    ensures counted { (past : List Item) → Legal past → (n : ℕ) → (n ≡ made past) ↔ MadeCount past n }
{}
