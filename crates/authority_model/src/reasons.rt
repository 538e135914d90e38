// The text of a reason.
ghost use Rattle.std.specs.Prelude.{◌≡◌, ◌++◌, codes, IfOk};
ghost use Rattle.std.specs.Fmt.{decimal};
ghost use Rattle.authority_model.specs.Cookies.{grant_text};
ghost use Rattle.authority_model.specs.Reasons.{category_text, reason_text};

use crate::Reason;
use crate::cookies::push_grant_text;
use itoa::Buffer;
use pk_types::{Category, Text};
use std::alloc::{AllocError, Global};

/// The word of a category.
fn category_word(category: Category) -> &'static str
    ensures text { result.now ≡ category_text category }
{
    match category {
        Category::Any => "any",
        Category::Inactive => "inactive",
        Category::Active => "active",
    }
}

/// The text of the default of a category.
fn default_bytes(alloc: Global, category: Category) -> Result<Vec<u8>, AllocError>
    ensures text { IfOk result (λ text. text.items ≡ codes "default:" ++ category_text category) }
{
    let category = category_word(category);
    Ok(format!(in alloc; "default:{category}")?.into_bytes())
}

/// The text of the entry at a place.
fn entry_bytes(alloc: Global, place: u32) -> Result<Vec<u8>, AllocError>
    ensures text { IfOk result (λ text. text.items ≡ codes "entry:" ++ decimal place) }
{
    let mut text = Vec::from_slice(alloc, b"entry:")?;
    text.extend_from_slice(Buffer::new().format(place).as_bytes())?;
    Ok(text)
}

/// The text of a temporary authorization with this number.
fn grant_bytes(alloc: Global, id: u64) -> Result<Vec<u8>, AllocError>
    ensures text { IfOk result (λ text. text.items ≡ codes "grant:" ++ grant_text id) }
{
    let mut text = String::from_str(alloc, "grant:")?;
    push_grant_text(&mut text, id)?;
    Ok(text.into_bytes())
}

/// The text of an action that implies another.
fn imply_bytes(alloc: Global, id: &Text) -> Result<Vec<u8>, AllocError>
    ensures text { IfOk result (λ text. text.items ≡ codes "imply:" ++ id.now) }
{
    let mut text = Vec::from_slice(alloc, b"imply:")?;
    text.extend_from_slice(id.bytes())?;
    Ok(text)
}

impl Reason {
    /// The text of the reason, as `root`, `default:active` or `grant:tmpauthz0`. It is the value of
    /// `polkit.decided-by` in a reply, and stands in an answer line.
    ///
    /// # Errors
    /// Want of memory alone.
    pub fn text(&self, alloc: Global) -> Result<Vec<u8>, AllocError>
        ensures text { IfOk result (λ text. text.items ≡ reason_text self.now) }
    {
        match self {
            Reason::Root => Vec::from_slice(alloc, b"root"),
            Reason::Default(category) => default_bytes(alloc, *category),
            Reason::Entry(place) => entry_bytes(alloc, *place),
            Reason::Grant(id) => grant_bytes(alloc, *id),
            Reason::Imply(id) => imply_bytes(alloc, id),
            Reason::Challenge => Vec::from_slice(alloc, b"challenge"),
            Reason::Dismissed => Vec::from_slice(alloc, b"dismissed"),
            Reason::AgentGone => Vec::from_slice(alloc, b"agent-gone"),
            Reason::SubjectGone => Vec::from_slice(alloc, b"subject-gone"),
            Reason::ActionGone => Vec::from_slice(alloc, b"action-gone"),
            Reason::IdentityGone => Vec::from_slice(alloc, b"identity-gone"),
        }
    }
}
