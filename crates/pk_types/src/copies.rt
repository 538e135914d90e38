// Copies of values, as far as there is memory.
ghost use Rattle.std.specs.Prelude.{◌≡◌, IfOk};

use crate::action_id::ActionId;
use crate::list::{List, NoMemory};
use crate::text::Text;
use crate::values::{Identity, Pair, Subject};

/// A value that can be copied, as far as there is memory.
pub trait TryCopy: Drop + Sized {
    /// A copy of the value.
    fn try_copy(&self) -> Result<Self, NoMemory>
        ensures copy { IfOk result (λ copy. copy ≡ self.now) };
}

impl TryCopy for u32 {
    fn try_copy(&self) -> Result<u32, NoMemory> {
        Ok(*self)
    }
}

impl TryCopy for Identity {
    fn try_copy(&self) -> Result<Identity, NoMemory> {
        Ok(*self)
    }
}

impl TryCopy for Text {
    fn try_copy(&self) -> Result<Text, NoMemory> {
        Text::try_copy(self)
    }
}

impl TryCopy for ActionId {
    fn try_copy(&self) -> Result<ActionId, NoMemory> {
        ActionId::try_copy(self)
    }
}

impl TryCopy for Subject {
    fn try_copy(&self) -> Result<Subject, NoMemory> {
        Subject::try_copy(self)
    }
}

impl TryCopy for Pair {
    fn try_copy(&self) -> Result<Pair, NoMemory> {
        Pair::try_copy(self)
    }
}

impl<T: TryCopy> TryCopy for List<T> {
    fn try_copy(&self) -> Result<List<T>, NoMemory> {
        List::try_copy(self)
    }
}
