// The pending challenges, and the change of them that is staged.
ghost use Rattle.std.specs.Prelude.{◌≡◌, ◌≤◌, [], None, Some, IsSome, find, filter, length, slice_get, false, IsOk, IfOk, OnOk, OnErr};
ghost use Rattle.std.specs.Option.{option_copied};
ghost use Rattle.entry_changes.specs.declared.change.ChallengeChange.{ChallengeChange as TheChange};
ghost use Rattle.entry_changes.specs.declared.change.ChallengeChange.TheVariants.{Begun};
ghost use Rattle.authority_model.specs.declared.pending.Pending.{Pending as ThePending};
ghost use Rattle.entry_changes.specs.Finding.{is_of_user, is_sent, named};
ghost use Rattle.entry_changes.specs.Finding.{with_cookie};
ghost use Rattle.entry_changes.specs.Changes.{AreApart, IsFresh, after_challenges, without_all};
ghost use Rattle.challenge_book.specs.Ready.{opens, IsReadyFor};
ghost use Rattle.challenge_book.specs.declared.indexed.TheConstants.{MAX_CHALLENGES};

use crate::filed::RowKeys;
use crate::indexed::IndexedRows;
use authority_model::{Entry, Pending, World};
use entry_changes::ChallengeChange;
use pk_types::{NoMemory, Text};
use std::alloc::Global;
use std::marker::Model;

/// A change, with the keys of the challenge that it opens.
#[derive(Drop)]
pub struct Staged {
    change: ChallengeChange,
    keys: Option<RowKeys>,
}

/// The pending challenges in the order of opening, and the change of them that is staged.
#[derive(Drop)]
pub struct ChallengeBook {
    alloc: Global,
    rows: IndexedRows,
    staged: Option<Staged>,
}

impl Model for ChallengeBook {
    ghost use Rattle.std.specs.Option.{option_map};
    ghost use Rattle.challenge_book.specs.Book.{Book, IsReady};

    ghost Value = { Book };

    ghost view = { λ a. record { items = a.rows.items; staged = option_map (λ s. s.change) a.staged } };

    ghost invariant = { λ a. IsReady a.rows.room a.staged };
}

/// Takes all memory that a change needs: room and keys for the challenge that it opens.
fn prepare(
    alloc: Global,
    rows: &mut IndexedRows,
    change: &ChallengeChange,
) -> Result<Option<RowKeys>, NoMemory>
    ensures items { rows.new.items ≡ rows.old.items }
    ensures ready { IfOk result (IsReadyFor rows.new.room change.now) }
    ensures free { opens change.now ≡ false → IsOk result }
{
    match change {
        ChallengeChange::Begun(row) => {
            rows.reserve()?;
            Ok(Some(RowKeys::of(alloc, row)?))
        }
        _ => Ok(None),
    }
}

/// Takes the challenges that these entries opened out.
fn close(rows: &mut IndexedRows, entries: &[u64])
    ensures items { rows.new.items ≡ without_all entries.now rows.old.items }
{
    for entry in entries {
        rows.take(*entry);
    }
}

/// Puts a challenge at the end, with its keys, which are there.
fn open(rows: &mut IndexedRows, row: Pending, keys: Option<RowKeys>)
    requires ready { IsReadyFor rows.old.room (Begun row) keys }
    requires fresh { IsFresh row rows.old.items }
    ensures items { rows.new.items ≡ after_challenges (Begun row) rows.old.items }
{
    match keys {
        Some(keys) => rows.push(row, keys),
        None => unreachable!(),
    }
}

/// Changes the challenges by what was staged.
fn carry_out(rows: &mut IndexedRows, staged: Staged)
    requires ready { IsReadyFor rows.old.room staged.change staged.keys }
    requires fresh { (row : ThePending) → staged.change ≡ Begun row → IsFresh row rows.old.items }
    ensures items { rows.new.items ≡ after_challenges staged.change rows.old.items }
{
    let Staged { change, keys } = staged;
    match change {
        ChallengeChange::Keep => {}
        ChallengeChange::Begun(row) => open(rows, row, keys),
        ChallengeChange::Answer { entry, identity } => rows.answer(entry, identity),
        ChallengeChange::Close(entries) => close(rows, entries.as_slice()),
    }
}

impl ChallengeBook {
    /// No challenges, and nothing staged. It takes no memory.
    pub fn new(alloc: Global) -> Result<ChallengeBook, NoMemory>
        ensures empty { IfOk result (λ book. book.items ≡ []) }
        ensures idle { IfOk result (λ book. book.staged ≡ None) }
    {
        Ok(ChallengeBook {
            alloc,
            rows: IndexedRows::new(alloc),
            staged: None,
        })
    }

    /// How many challenges there are. No two of them can be mistaken for each other.
    pub fn len(&self) -> usize
        ensures length { result ≡ length self.now.items }
        ensures few { result ≤ MAX_CHALLENGES }
        ensures apart { AreApart self.now.items }
    {
        self.rows.len()
    }

    /// The challenge at a place in the order of opening.
    pub fn nth(&self, i: usize) -> Option<&Pending>
        ensures row { option_copied result ≡ slice_get self.now.items i }
    {
        self.rows.nth(i)
    }

    /// The challenge with the cookie of this text, as AuthenticationAgentResponse of the polkit
    /// reference manual names it.
    pub fn of_cookie(&self, cookie: &Text) -> Option<&Pending>
        ensures row { option_copied result ≡ with_cookie cookie.now self.now.items }
    {
        self.rows.of_cookie(cookie)
    }

    /// The challenge of a connection's check with this cancellation id, as
    /// CancelCheckAuthorization of the polkit reference manual names it; none for an empty id.
    pub fn of_cancel(&self, caller: u32, id: &Text) -> Option<&Pending>
        ensures row { option_copied result ≡ named caller id.now self.now.items }
    {
        self.rows.of_cancel(caller, id)
    }

    /// The challenge that an agent's connection was asked with this serial (BeginAuthentication in
    /// the polkit reference manual).
    pub fn of_serial(&self, agent: u32, serial: u32) -> Option<&Pending>
        ensures row { option_copied result ≡ find (is_sent agent serial) self.now.items }
    {
        self.rows.of_serial(agent, serial)
    }

    /// How many challenges are of checks of a user.
    pub fn count_of_uid(&self, uid: u32) -> u32
        ensures count { result ≡ length (filter (is_of_user uid) self.now.items) }
    {
        self.rows.count_of_uid(uid)
    }

    /// Takes all memory that a change needs, and stages it in place of what was staged before.
    ///
    /// `NoMemory` also where a challenge would be one more than a `u32` counts. After a refusal
    /// nothing is staged. A change that opens no challenge is not refused.
    pub fn stage(&mut self, _entry: &Entry, change: ChallengeChange) -> Result<(), NoMemory>
        ensures items { self.new.items ≡ self.old.items }
        ensures ok { OnOk result (self.new.staged ≡ Some change) }
        ensures err { OnErr result (self.new.staged ≡ None) }
        ensures free { opens change ≡ false → IsOk result }
    {
        self.unstage();
        let keys = prepare(self.alloc, &mut self.rows, &change)?;
        self.staged = Some(Staged { change, keys });
        Ok(())
    }

    /// Drops what is staged. It takes no memory.
    pub fn unstage(&mut self)
        ensures items { self.new.items ≡ self.old.items }
        ensures idle { self.new.staged ≡ None }
    {
        if self.staged.is_some() {
            self.staged = None;
        }
    }

    /// Changes the challenges by what is staged for an entry. It takes no memory.
    pub fn apply_entry(&mut self, _entry: &Entry, _world: &World)
        requires staged { IsSome self.old.staged }
        requires fresh { (row : ThePending) → self.old.staged ≡ Some (Begun row) → IsFresh row self.old.items }
        ensures items { (change : TheChange) → self.old.staged ≡ Some change → self.new.items ≡ after_challenges change self.old.items }
        ensures idle { self.new.staged ≡ None }
    {
        match self.staged.take() {
            Some(staged) => carry_out(&mut self.rows, staged),
            None => unreachable!(),
        }
    }
}
