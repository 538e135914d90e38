//! Action files, as polkit(8), "Declaring Actions", describes them, in polkit's profile of XML:
//! the actions of a file, or its first fault and the fault's place.
#![tactic(auto)]

mod fault;
mod file;
mod laws;
mod reading;

pub use fault::XmlFault;
pub use file::ActionFile;
pub use laws::{
    actions_are_read_again, actions_read_have_a_form, comments_read_have_a_form,
    defaults_are_read_again, defaults_read_have_a_form, documents_are_read_again,
    documents_read_have_a_form, elements_are_found_again, ends_are_found_again,
    roots_are_read_again, roots_read_have_a_form, steps_take_pieces, tags_are_read_again,
    tags_read_have_a_form, text_elements_are_read_again, text_elements_read_have_a_form,
    texts_are_read_again, values_are_read_again, values_read_have_a_form,
    what_is_found_next_has_a_form, whole_texts_are_read_again, whole_texts_read_have_a_form,
};
pub use reading::{MAX_ACTION_FILE, read};
pub use xml_pieces::XmlFaultKind;
