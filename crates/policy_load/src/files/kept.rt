// The actions so far, and their ids in a set, so that none is looked for by walking.
ghost use Rattle.std.specs.Prelude.{◌≡◌, map};

use authority_model::ActionList;
use indexmap::IndexSet;

/// The actions so far.
#[derive(Drop)]
pub struct ActionTable {
    pub actions: ActionList,
    pub ids: IndexSet<Vec<u8>>,
    ghost ids_stand: { map (λ id. id.items) ids.keys ≡ map (λ a. a.id) actions },
}
