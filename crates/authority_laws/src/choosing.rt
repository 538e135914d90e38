// What is chosen among several: the rule that decides, the action that implies another, and the
// words of a text.
ghost use Rattle.std.specs.Prelude.{ℕ, ◌≡◌, ◌↔◌, true, List, [], ◌∷◌, ◌++◌, Some, None};
ghost use Rattle.std.specs.Ordering.{nat_cmp};
ghost use Rattle.std.specs.Cmp.Lexicographic.{slice_cmp};
ghost use Rattle.std.specs.declared.cmp.Ordering.TheVariants.{Less};
ghost use Rattle.pk_types.specs.declared.values.Category.{Category};
ghost use Rattle.pk_types.specs.declared.values.Implicit.{Implicit};
ghost use Rattle.authority_model.specs.declared.journal.Item.{Item};
ghost use Rattle.authority_model.specs.declared.policy.Policy.{Policy};
ghost use Rattle.authority_model.specs.declared.policy.RuleEntry.{RuleEntry};
ghost use Rattle.authority_model.specs.declared.verdict.GrantRow.{GrantRow};
ghost use Rattle.authority_model.specs.declared.verdict.RuleSource.{RuleSource};
ghost use Rattle.authority_model.specs.declared.world.World.{World};
ghost use Rattle.authority_model.specs.declared.world.User.{User as UserRow};
ghost use Rattle.authority_model.specs.Lists.{Each};
ghost use Rattle.authority_model.specs.Words.{Bytes, comes_before, least_text, words};
ghost use Rattle.authority_model.specs.Worlds.{user_row};
ghost use Rattle.authority_model.specs.Facts.{Facts};
ghost use Rattle.authority_model.specs.Rules.{deciding, places};
ghost use Rattle.authority_model.specs.Deciding.{Decision, decided, implying};
ghost use Rattle.authority_laws.specs.Greatest.{IsGreatest, IsGroupLabel, IsPair};
ghost use Rattle.authority_laws.specs.Least.{IsImplied, IsLeastImplying};
ghost use Rattle.authority_laws.specs.Longest.{HasWords};

/// The last identity place of a user is its own label, so a rule for the user itself outranks those
/// for its groups; each place before it is a label of one of its groups.
pub fn own_place_comes_last()
    ensures own_last { (world : World) (uid : ℕ) (user : UserRow) → user_row world uid ≡ Some user → (groups : List Bytes) × (places world uid ≡ groups ++ user.label ∷ []) × Each (IsGroupLabel world user) groups }
{}

/// The rule that decides is that of the greatest matching pair of an identity place and a rule, and
/// there is none exactly where no pair matches.
pub fn greatest_pair_decides()
    ensures found { (policy : Policy) (world : World) (uid : ℕ) (category : Category) (action : Bytes) (y : ℕ) (rule : RuleEntry) → (deciding policy world uid category action ≡ Some (y, rule)) ↔ IsGreatest (places world uid) policy.entries action category y rule }
    ensures none { (policy : Policy) (world : World) (uid : ℕ) (category : Category) (action : Bytes) → (deciding policy world uid category action ≡ None) ↔ ((x y : ℕ) (rule : RuleEntry) → IsPair (places world uid) policy.entries action category x y rule → ⊥) }
{}

/// The action that implies another is the one with the least id, by bytes as Rust compares them,
/// among those that list it and are allowed by themselves. It decides exactly where the user is not
/// uid 0, the value is not yes and no temporary authorization serves.
pub fn least_id_implies()
    ensures by_bytes { (a b : Bytes) → (comes_before a b ≡ true) ↔ (slice_cmp nat_cmp a b ≡ Less) }
    ensures found { (past : List Item) (grants : List GrantRow) (f : Facts) (t : ℕ) (a b : Bytes) → (least_text (implying past grants f t a) ≡ Some b) ↔ IsLeastImplying past grants f t a b }
    ensures decides { (past : List Item) (grants : List GrantRow) (f : Facts) (t : ℕ) (a b : Bytes) (value : Implicit) (source : RuleSource) → (decided past grants f t a (value, source) ≡ Decision.Imply b) ↔ IsImplied past grants f t a value b }
{}

/// The words of a text are its longest runs without blanks, each once and in order.
pub fn words_are_longest_runs()
    ensures found { (text : Bytes) (ws : List Bytes) → (words text ≡ ws) ↔ HasWords text ws }
{}
