// Laws about the element `defaults`.
ghost use Rattle.std.specs.Prelude.{◌≡◌, ◌++◌, ℕ, List, Option, None, Ok};
ghost use Rattle.action_drafts.specs.declared.draft.Defaults.{Defaults};
ghost use Rattle.action_drafts.specs.Defaults.{defaults_element};
ghost use Rattle.action_xml.specs.RowForm.{Parent};
ghost use Rattle.action_xml.specs.DefaultsForm.{Default, SaysDefaults, defaults_bytes};

/// The defaults of an action are read again behind their name, whatever follows.
pub fn defaults_are_read_again()
    ensures again { (place rest : List ℕ) (p : Parent Default) (d : Defaults) → SaysDefaults p d
        → defaults_element place None (defaults_bytes p ++ rest) ≡ Ok (d, rest) }
{}

/// Defaults that are read have the form of them behind their name, and are the first of their
/// action.
pub fn defaults_read_have_a_form()
    ensures found { (place : List ℕ) (old : Option Defaults) (bytes rest : List ℕ) (d : Defaults) → defaults_element place old bytes ≡ Ok (d, rest)
        → (old ≡ None) × ((p : Parent Default) × SaysDefaults p d × (bytes ≡ defaults_bytes p ++ rest)) }
{}
