// What was read so far of an action and of a file.
ghost use Rattle.std.specs.Prelude.{◌≡◌};
ghost use Rattle.action_drafts.specs.Origins.{no_origin};
ghost use Rattle.action_drafts.specs.Defaults.{no_defaults};

use pk_types::{ActionId, Implicit, List, PairList, Text};
use std::marker::Model;
use xml_pieces::KeyedTexts;

/// An element whose start tag has begun.
#[derive(Clone, Copy)]
pub struct Element<'a> {
    /// Its name.
    pub name: &'a [u8],
    /// The bytes from its `<` on.
    pub place: &'a [u8],
    /// The bytes behind its name.
    pub rest: &'a [u8],
}

/// One of the elements that an action and a file may both have.
#[derive(Clone, Copy)]
pub enum OriginPart {
    Vendor,
    VendorUrl,
    Icon,
}

/// Who an action is from: the texts of `vendor`, `vendor_url` and `icon_name`, where they stand.
#[derive(Drop)]
pub struct Origin {
    pub vendor: Option<Text>,
    pub vendor_url: Option<Text>,
    pub icon: Option<Text>,
}

impl Origin {
    /// None of the three stands.
    pub fn none() -> Origin
        ensures none { result ≡ no_origin }
    {
        Origin {
            vendor: None,
            vendor_url: None,
            icon: None,
        }
    }
}

/// The values of `allow_any`, `allow_inactive` and `allow_active`, where they stand.
#[derive(Clone, Copy)]
pub struct Defaults {
    pub any: Option<Implicit>,
    pub inactive: Option<Implicit>,
    pub active: Option<Implicit>,
}

impl Defaults {
    /// None of the three stands.
    pub fn none() -> Defaults
        ensures none { result ≡ no_defaults }
    {
        Defaults {
            any: None,
            inactive: None,
            active: None,
        }
    }
}

/// An action.
#[derive(Drop)]
pub struct ActionDraft {
    pub id: ActionId,
    /// Under their languages.
    pub descriptions: PairList,
    /// Under their languages.
    pub messages: PairList,
    pub origin: Origin,
    pub defaults: Option<Defaults>,
    pub annotations: PairList,
}

/// An action whose end tag is still to come. Its texts are looked up by their keys, which takes
/// more memory than the draft that contracts see.
#[derive(Drop)]
pub struct OpenAction {
    pub(crate) id: ActionId,
    pub(crate) descriptions: KeyedTexts,
    pub(crate) messages: KeyedTexts,
    pub(crate) origin: Origin,
    pub(crate) defaults: Option<Defaults>,
    pub(crate) annotations: KeyedTexts,
}

impl Model for OpenAction {
    ghost use Rattle.action_drafts.specs.declared.draft.ActionDraft.{ActionDraft};

    ghost Value = { ActionDraft };

    ghost view = { λ a. record {
      id = a.id;
      descriptions = a.descriptions;
      messages = a.messages;
      origin = a.origin;
      defaults = a.defaults;
      annotations = a.annotations;
    } };
}

impl OpenAction {
    /// The action behind its end tag.
    pub fn closed(self) -> ActionDraft
        ensures draft { result ≡ self }
    {
        ActionDraft {
            id: self.id,
            descriptions: PairList::from_vec(self.descriptions.into_pairs()),
            messages: PairList::from_vec(self.messages.into_pairs()),
            origin: self.origin,
            defaults: self.defaults,
            annotations: PairList::from_vec(self.annotations.into_pairs()),
        }
    }
}

/// Actions, in the order of the file.
pub type DraftList = List<ActionDraft>;

/// A file.
#[derive(Drop)]
pub struct FileDraft {
    pub origin: Origin,
    pub actions: DraftList,
}
