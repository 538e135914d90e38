// The policy: actions, rules and administrators.
use pk_types::{ActionId, Category, Implicit, List, PairList, Text, TextList};
use std::alloc::Global;

/// A text in one language, of an action's descriptions or messages.
///
/// polkit(8), "Declaring Actions": the elements `description` and `message`, with `xml:lang`.
#[derive(Drop)]
pub struct Localized {
    /// The language, as `de` or `de_AT`; empty where the element has no `xml:lang`.
    pub lang: Text,
    pub text: Text,
}

/// A list of texts, each in its language.
pub type LocalizedList = List<Localized>;

/// An action that a caller may ask about.
///
/// polkit(8), "Declaring Actions", and ActionDescription in the reference manual.
#[derive(Drop)]
pub struct Action {
    pub id: ActionId,
    /// What the action does.
    pub descriptions: LocalizedList,
    /// What an agent shows while it asks.
    pub messages: LocalizedList,
    /// The name of the vendor; empty where there is none.
    pub vendor: Text,
    /// The address of the vendor's page; empty where there is none.
    pub vendor_url: Text,
    /// The name of an icon; empty where there is none.
    pub icon: Text,
    /// The default for a subject that is in no local session.
    pub any: Implicit,
    /// The default for a subject in a local session that is not active.
    pub inactive: Implicit,
    /// The default for a subject in the active local session.
    pub active: Implicit,
    /// Keys and values; of several pairs with one key the first counts.
    pub annotations: PairList,
}

/// A list of actions.
pub type ActionList = List<Action>;

/// A rule of the local authority, which may override the defaults of actions.
///
/// pklocalauthority(8), "Authorization Entry".
#[derive(Drop)]
pub struct RuleEntry {
    /// Globs on `unix-user:NAME` and `unix-group:NAME`.
    pub identities: TextList,
    /// Globs on action ids.
    pub actions: TextList,
    /// The value of `ResultAny`, where the key stands.
    pub any: Option<Implicit>,
    /// The value of `ResultInactive`, where the key stands.
    pub inactive: Option<Implicit>,
    /// The value of `ResultActive`, where the key stands.
    pub active: Option<Implicit>,
    /// The pairs of `ReturnValue`.
    pub pairs: PairList,
}

/// A list of rules.
pub type RuleList = List<RuleEntry>;

/// Actions, rules and administrators.
///
/// Each of its lists has fewer than 2^32 items.
#[derive(Drop)]
pub struct Policy {
    /// Of several actions with one id the first counts.
    pub actions: ActionList,
    /// In the order in which they are evaluated: a later one overrides (pklocalauthority(8),
    /// "Evaluation Order").
    pub entries: RuleList,
    /// The items of `AdminIdentities` (pklocalauthority(8), "Administrator Authentication").
    pub admins: TextList,
}

impl Action {
    ghost use Rattle.std.specs.Prelude.{◌≡◌, []};
    ghost use Rattle.std.specs.Option.{option_copied};
    ghost use Rattle.authority_model.specs.Rules.{default_of, annotation, plain_action};

    /// An action with these defaults and nothing else: no texts, no annotations. It takes no memory.
    pub fn plain(
        alloc: Global,
        id: ActionId,
        any: Implicit,
        inactive: Implicit,
        active: Implicit,
    ) -> Action
        ensures plain { result ≡ plain_action id any inactive active }
    {
        Action {
            id,
            descriptions: List::new(alloc),
            messages: List::new(alloc),
            vendor: Text::new(alloc),
            vendor_url: Text::new(alloc),
            icon: Text::new(alloc),
            any,
            inactive,
            active,
            annotations: List::new(alloc),
        }
    }

    /// The default of the action for a subject in this category.
    pub fn default_for(&self, category: Category) -> Implicit
        ensures default { result ≡ default_of self.now category }
    {
        match category {
            Category::Any => self.any,
            Category::Inactive => self.inactive,
            Category::Active => self.active,
        }
    }

    /// The value of an annotation: that of the first pair with this key.
    pub fn annotation(&self, key: &[u8]) -> Option<&Text>
        ensures first { option_copied result ≡ annotation self.now key.now }
    {
        match self
            .annotations
            .as_slice()
            .iter()
            .find(|pair| pair.key.bytes() == key)
        {
            Some(pair) => Some(&pair.value),
            None => None,
        }
    }
}

impl RuleEntry {
    ghost use Rattle.std.specs.Prelude.{◌≡◌};
    ghost use Rattle.authority_model.specs.Rules.{value_of};

    /// The value of the rule for a subject in this category, where it has one.
    pub fn value_for(&self, category: Category) -> Option<Implicit>
        ensures value { result ≡ value_of self.now category }
    {
        let RuleEntry {
            any,
            inactive,
            active,
            ..
        } = self;
        match category {
            Category::Any => *any,
            Category::Inactive => *inactive,
            Category::Active => *active,
        }
    }
}

impl Policy {
    ghost use Rattle.std.specs.Prelude.{◌≡◌};
    ghost use Rattle.std.specs.Option.{option_copied};
    ghost use Rattle.authority_model.specs.Rules.{action_of};

    /// The action of an id: the first that has it.
    pub fn action(&self, id: &Text) -> Option<&Action>
        ensures first { option_copied result ≡ action_of self.now id.now }
    {
        self.actions
            .as_slice()
            .iter()
            .find(|action| action.id.text().is_same(id))
    }
}
