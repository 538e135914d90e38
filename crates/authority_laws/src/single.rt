// What there is at most one of.
ghost use Rattle.std.specs.Prelude.{ℕ, ◌<◌, ◌^◌, ◌≡◌, ◌==◌, ◌&&◌, false, List, length, bytes_eq};
ghost use Rattle.pk_types.specs.Decimals.{is_empty};
ghost use Rattle.authority_model.specs.declared.journal.Item.{Item};
ghost use Rattle.authority_model.specs.declared.key.Key.{Key};
ghost use Rattle.authority_model.specs.Words.{Bytes};
ghost use Rattle.authority_model.specs.Lists.{AtMostOne};
ghost use Rattle.authority_model.specs.Keys.{same_key};
ghost use Rattle.authority_model.specs.Agents.{in_force};
ghost use Rattle.authority_model.specs.Cookies.{cookie_text};
ghost use Rattle.authority_model.specs.Challenges.{pending};
ghost use Rattle.authority_model.specs.Grants.{kept};
ghost use Rattle.authority_model.specs.Legal.{Legal};

/// A process or a session has at most one authentication agent in force.
pub fn one_registration_a_key()
    ensures by_key { (past : List Item) (key : Key) → AtMostOne (λ a. same_key a.key key) (in_force past) }
{}

/// A search for a pending challenge finds the only one there is: by its agent and the serial that
/// the agent was asked with, by the number or the text of its cookie, or by its asker and
/// cancellation id.
///
/// That the text of a cookie tells challenges apart is said of histories of fewer than 2^63 items.
pub fn one_challenge_found()
    ensures by_serial { (past : List Item) → Legal past → (c s : ℕ) → AtMostOne (λ ch. (ch.agent == c) && (ch.agent_serial == s)) (pending past) }
    ensures by_number { (past : List Item) → Legal past → (n : ℕ) → AtMostOne (λ ch. ch.cookie.serial == n) (pending past) }
    ensures by_cookie { (past : List Item) → Legal past → length past < 2 ^ 63 → (text : Bytes) → AtMostOne (λ ch. bytes_eq (cookie_text ch.cookie) text) (pending past) }
    ensures by_cancellation { (past : List Item) → Legal past → (c : ℕ) (id : Bytes) → is_empty id ≡ false → AtMostOne (λ ch. (ch.asker == c) && bytes_eq ch.cancel id) (pending past) }
{}

/// A number names at most one temporary authorization.
pub fn one_grant_a_number()
    ensures by_number { (past : List Item) → Legal past → (n : ℕ) → AtMostOne (λ g. g.id == n) (kept past) }
{}
