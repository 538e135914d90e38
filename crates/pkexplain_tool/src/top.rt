// An explanation from its words to its status.
ghost use Rattle.std.specs.Prelude.{ℕ, ◌≡◌, ◌<◌, ◌≤◌, ◌↔◌, length, List, None, Some};
ghost use Rattle.pk_outside.specs.Allowing.{IsFree};
ghost use Rattle.authority_model.specs.declared.load.Loaded.{Loaded as TheLoad};
ghost use Rattle.authority_model.specs.Lists.{Has};
ghost use Rattle.pkexplain_tool.specs.Dead.{IsDead};
ghost use Rattle.pkexplain_tool.specs.Explains.{Explained, OutputFaults};
ghost use Rattle.pkexplain_tool.specs.Lines.{Line, explained};
ghost use Rattle.pkexplain_tool.specs.Words.{root_in};

use crate::report::tell_load;
use crate::status::ExplainStatus;
use crate::stop::Stop;
use crate::words::root_in;
use pk_outside::{Sink, Tree};
use pk_types::Text;
use policy_load::load;
use std::alloc::Global;

/// Explains the load of a root.
fn explain<T: Tree, O: Sink>(
    alloc: Global,
    root: &Text,
    tree: &mut T,
    output: &mut O,
) -> ExplainStatus
    requires free { IsFree O.allowed }
    ensures explained { Explained (T.told tree.old) root.now (T.faults tree.old) (T.faults tree.new) (O.held output.old) (O.held output.new) result }
    ensures write { OutputFaults O.held O.faults output.old output.new result }
    ensures later { T.faults tree.old ≤ T.faults tree.new }
    ensures same { T.told tree.new ≡ T.told tree.old }
{
    let loaded = match load(alloc, tree, root) {
        Ok(loaded) => loaded,
        Err(refused) => return ExplainStatus::of_refused(refused),
    };
    match tell_load(alloc, loaded, output) {
        Ok(()) => ExplainStatus::Done,
        Err(Stop::Failed) => ExplainStatus::WriteFault,
        Err(Stop::NoMemory) => ExplainStatus::NoMemory,
    }
}

/// Does what the words of `pkexplain` ask, without the program's name: loads the tree below the root
/// that they name, and writes what decides each action for each user, and which rules decide nothing.
///
/// The lines are, each ended by a line feed:
/// 1. `skipped FILE KIND AT` for each policy file that was skipped;
/// 2. `UID CATEGORY ACTION VALUE CAUSE` for each user in the order of its table, each category in the
///    order any, inactive, active, and each action in the order of the policy. VALUE is the implicit
///    value (pklocalauthority(8), "Evaluation Order"), and CAUSE is `default:CATEGORY` or
///    `entry:PLACE`; for uid 0 they are `yes root`;
/// 3. `dead PLACE` or `live PLACE UID CATEGORY ACTION` for each rule by its place, where the case is
///    the first that the rule decides.
///
/// # Errors
/// `Usage` exactly where the words are not `--root DIR`, and then nothing is done; `TreeFault` only
/// where the tree counted a fault, and `LoadRefused` exactly where the load is refused by a limit or
/// a table, and then nothing is written; `WriteFault` only where the output counted a fault, which
/// its last write did, and then a prefix of the lines was written; `NoMemory`, which may come in place
/// of any other answer.
pub fn pkexplain<T: Tree, O: Sink>(
    alloc: Global,
    words: &[Text],
    tree: &mut T,
    output: &mut O,
) -> ExplainStatus
    requires free { IsFree O.allowed }
    ensures usage { (result ≡ ExplainStatus.Usage) ↔ (root_in words.now ≡ None) }
    ensures unread { result ≡ ExplainStatus.Usage → T.faults tree.new ≡ T.faults tree.old }
    ensures unwritten { result ≡ ExplainStatus.Usage → O.held output.new ≡ O.held output.old }

    // What is written is the lines of the load that the tree gives below the root, as far as the
    // status says.
    ensures explained { (root : List ℕ) → root_in words.now ≡ Some root →
        Explained (T.told tree.old) root (T.faults tree.old) (T.faults tree.new) (O.held output.old) (O.held output.new) result }

    // A rule is told as dead exactly where it gives no implicit value to any user of the world but
    // root.
    ensures dead { (loaded : TheLoad) (place : ℕ) → Has (explained loaded) (Line.Dead place)
        ↔ ((place < length loaded.policy.entries) × IsDead loaded.policy loaded.world place) }

    // A fault of the output is told exactly where it counted one, by its last write.
    ensures write { OutputFaults O.held O.faults output.old output.new result }
    ensures later { T.faults tree.old ≤ T.faults tree.new }
    ensures same { T.told tree.new ≡ T.told tree.old }
{
    match root_in(words) {
        Some(root) => explain(alloc, root, tree, output),
        None => ExplainStatus::Usage,
    }
}
