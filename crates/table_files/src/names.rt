// The names of rows that stand already, in a set.
ghost use Rattle.std.specs.Prelude.{◌≡◌, ℕ, List, bytes_eq, IfOk};
ghost use Rattle.authority_model.specs.Lists.{any_of};
ghost use Rattle.table_files.specs.Sets.{has_name};

use authority_model::{Session, User};
use indexmap::IndexSet;
use pk_types::NoMemory;
use std::alloc::Global;

/// A row with a name.
pub trait Named {
    ghost name: { Self → List ℕ };

    /// The bytes of the name.
    fn name_bytes(&self) -> &[u8]
        ensures name { result.now ≡ name self.now };
}

impl Named for User {
    ghost name = { λ u. u.name };

    fn name_bytes(&self) -> &[u8] {
        self.name.bytes()
    }
}

impl Named for Session {
    ghost name = { λ s. s.id };

    fn name_bytes(&self) -> &[u8] {
        self.id.bytes()
    }
}

/// The set of the names of these rows.
pub fn names_of<'a, T: Named>(alloc: Global, rows: &'a [T]) -> Result<IndexSet<&'a [u8]>, NoMemory>
    ensures names { IfOk result (λ names. (name : List ℕ) →
        has_name names name ≡ any_of (λ row. bytes_eq name (T.name row)) rows.now) }
{
    let mut names = IndexSet::new(alloc);
    for row in rows {
        names.insert(row.name_bytes())?;
    }
    Ok(names)
}
