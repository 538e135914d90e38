//! Laws about the definitions of `authority_model`, each the clause of a function that does
//! nothing.
//!
//! Most laws speak of lists of items, the newest first, as the definitions see a history: each item
//! is an entry of the journal with the load that it names. The items after it in the list are the
//! history before it.
#![tactic(auto)]

mod choosing;
mod costs;
mod handed_in;
mod licence;
mod listed;
mod looking_back;
mod rising;
mod sent;
mod single;

pub use choosing::{
    greatest_pair_decides, least_id_implies, own_place_comes_last, words_are_longest_runs,
};
pub use costs::{items_are_counted, outputs_are_counted};
pub use handed_in::one_history;
pub use licence::every_yes_is_licensed;
pub use listed::keys_are_listed;
pub use looking_back::{
    answers_found, challenges_found, connections_found, grants_counted, grants_found,
    registrations_found,
};
pub use rising::{challenges_rise, grants_rise, live_connections_listed};
pub use sent::{
    beginnings_are_legal, collects_take_batches, departed_are_sent_nothing, outputs_are_few,
    outputs_can_be_written, outputs_go_to_live_connections, outputs_name_loads,
};
pub use single::{one_challenge_found, one_grant_a_number, one_registration_a_key};
