// Lists that are in rising order.
ghost use Rattle.std.specs.Prelude.{ℕ, ◌≡◌, ◌↔◌, true, List, map};
ghost use Rattle.std.specs.List.Sorted.{IsStrictlyIncreasing};
ghost use Rattle.authority_model.specs.declared.journal.Item.{Item};
ghost use Rattle.authority_model.specs.Lists.{Has};
ghost use Rattle.authority_model.specs.Peers.{live, live_connections};
ghost use Rattle.authority_model.specs.Challenges.{pending};
ghost use Rattle.authority_model.specs.Grants.{kept};
ghost use Rattle.authority_model.specs.Legal.{Legal};

/// The live connections are listed, each once and by rising number, and no other is.
pub fn live_connections_listed()
    ensures listed { (past : List Item) (c : ℕ) → Has (live_connections past) c ↔ (live past c ≡ true) }
    ensures rising { (past : List Item) → IsStrictlyIncreasing (live_connections past) }
{}

/// The pending challenges are in the order in which they were opened: the places of the checks that
/// opened them rise.
pub fn challenges_rise()
    ensures rising { (past : List Item) → IsStrictlyIncreasing (map (λ ch. ch.entry) (pending past)) }
{}

/// The temporary authorizations come by rising number, so the first that a search finds has the
/// least number.
pub fn grants_rise()
    ensures rising { (past : List Item) → Legal past → IsStrictlyIncreasing (map (λ g. g.id) (kept past)) }
{}
