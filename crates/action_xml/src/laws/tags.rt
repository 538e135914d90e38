// Laws about start tags and their attributes.
ghost use Rattle.std.specs.Prelude.{◌≡◌, ℕ, Bool, List, [], ◌++◌, Ok, map};
ghost use Rattle.xml_pieces.specs.Texts.{Tag, tag};
ghost use Rattle.action_xml.specs.TextForm.{IsWhite};
ghost use Rattle.action_xml.specs.TagForm.{Attr, attr_pair, AreAttrs, AreFineIds, tag_bytes};

/// A start tag is read again behind its name, whatever follows: its attributes, and whether its
/// element is empty.
pub fn tags_are_read_again()
    ensures again { (is_action : Bool) (attrs : List Attr) (white : List ℕ) (is_empty : Bool) (rest : List ℕ)
        → AreAttrs [] attrs → AreFineIds is_action attrs → IsWhite white
        → tag is_action (tag_bytes attrs white is_empty ++ rest) ≡ Ok (record { attributes = map attr_pair attrs; is_empty = is_empty; rest = rest }) }
{}

/// A start tag that is read has the form of one, behind its name.
pub fn tags_read_have_a_form()
    ensures found { (is_action : Bool) (bytes : List ℕ) (t : Tag) → tag is_action bytes ≡ Ok t
        → (attrs : List Attr) × (white : List ℕ) × AreAttrs [] attrs × AreFineIds is_action attrs × IsWhite white
        × (bytes ≡ tag_bytes attrs white t.is_empty ++ t.rest) × (t.attributes ≡ map attr_pair attrs) }
{}
