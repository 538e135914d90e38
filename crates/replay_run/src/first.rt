// The first draft of a run: what the tree gives below its root, or the empty one.
ghost use Rattle.std.specs.Prelude.{◌≡◌, IfErr, IfOk};
ghost use Rattle.std.specs.Option.{option_copied};
ghost use Rattle.replay_run.specs.Rooted.{IsFirst, IsFirstStop, refused_end};

use crate::ends::ReplayEnd;
use authority_model::Loaded;
use pk_outside::Tree;
use pk_types::Text;
use policy_load::{LoadRefused, load};
use std::alloc::Global;

/// How a first load that is refused ends the run.
pub fn refused_end(refused: LoadRefused) -> ReplayEnd
    ensures end { result ≡ refused_end refused }
{
    match refused {
        LoadRefused::TreeFault { count } => ReplayEnd::TreeFault { count },
        LoadRefused::NoMemory => ReplayEnd::NoMemory,
        refused => ReplayEnd::LoadRefused { refused },
    }
}

/// The draft that a run begins with: what the tree gives below the root, or the empty one without a
/// root.
pub fn first_draft<T: Tree>(
    alloc: Global,
    root: Option<&Text>,
    tree: &mut T,
) -> Result<Loaded, LoadRefused>
    ensures first { IfOk result (IsFirst (T.told tree.old) (option_copied root.entry)) }
    ensures refused { IfErr result (IsFirstStop (T.told tree.old) (option_copied root.entry) (T.faults tree.old) (T.faults tree.new)) }
{
    match root {
        Some(root) => load(alloc, tree, root),
        None => Ok(Loaded::empty(alloc)),
    }
}
