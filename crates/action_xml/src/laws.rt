// Laws about action files: what is made as polkit's profile of XML has it is read, and what is read
// is made so. The definitions of `specs/` say what a file is made of, and speak of no reading. Each
// law is the contract of a function that does nothing.
mod actions;
mod children;
mod defaults;
mod documents;
mod roots;
mod tags;
mod text_elements;
mod texts;
mod values;

pub use actions::{actions_are_read_again, actions_read_have_a_form};
pub use children::{elements_are_found_again, ends_are_found_again, what_is_found_next_has_a_form};
pub use defaults::{defaults_are_read_again, defaults_read_have_a_form};
pub use documents::{documents_are_read_again, documents_read_have_a_form};
pub use roots::{roots_are_read_again, roots_read_have_a_form};
pub use tags::{tags_are_read_again, tags_read_have_a_form};
pub use text_elements::{text_elements_are_read_again, text_elements_read_have_a_form};
pub use texts::{
    comments_read_have_a_form, steps_take_pieces, texts_are_read_again, whole_texts_are_read_again,
    whole_texts_read_have_a_form,
};
pub use values::{values_are_read_again, values_read_have_a_form};
