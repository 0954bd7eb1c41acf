//! A live transaction's work.
ghost use Rattle.std.specs.Prelude.{◌≡◌, [], IfErr, IfOk, None, OnErr, OnOk, if◌then◌else◌};
ghost use Rattle.ras_domain.specs.declared.lock.LockName.{LockName};
ghost use Rattle.ras_store.specs.Piece.{piece_over};
ghost use Rattle.law_work.specs.Written.{is_written};
ghost use Rattle.ras_work.specs.Works.{IsApplied, IsOwnSeen, IsSameWork, work_changes, work_kept};

use crate::copies::copies_of;
use crate::forms::changes_of;
use crate::written::Written;
use ras_store::{Changes, Computed, Piece, View};
use ras_syntax::Checked;
use std::alloc::{AllocError, Global};

/// A live transaction's view of the database, and the changes that it made so far. Tiles are replaced by
/// new ones where they are written, and shared where not.
#[derive(Drop)]
pub struct Work {
    view: View,
    written: Written,
}

impl Work {
    /// No work: it sees nothing, and has no changes. It allocates nothing.
    pub fn new(alloc: Global) -> Work
        ensures kept { (name : LockName) → work_kept result name ≡ None }
        ensures changes { work_changes result ≡ [] }
        ensures own { IsOwnSeen result }
    {
        Work {
            view: View::new(alloc),
            written: Written::new(alloc),
        }
    }

    /// What the transaction sees.
    pub fn view(&self) -> &View
        ensures { result.now ≡ self.now.view }
    {
        &self.view
    }

    /// Takes a piece of the database into the view. What the work wrote stays. Where memory is wanting, the
    /// work stays as it was, and the piece is handed back.
    pub fn take_piece(&mut self, alloc: Global, piece: Piece) -> Result<(), Piece>
        ensures kept { OnOk result ((name : LockName) → work_kept self.new name
            ≡ (if is_written (work_changes self.old) name then work_kept self.old name
            else piece_over piece name (work_kept self.old name))) }
        ensures changes { work_changes self.new ≡ work_changes self.old }
        ensures refused { OnErr result (IsSameWork self.old self.new) }
        ensures piece_returned { IfErr result (λ back. back ≡ piece) }
        ensures own { IsOwnSeen self.old → IsOwnSeen self.new }
    {
        self.view.put_piece(alloc, piece, &self.written)
    }

    /// Applies what a statement other than a select comes to, and answers the number of its answer. Where memory
    /// is wanting, or the writes are none that the statement comes to over the view, the work stays as it was, and
    /// they are handed back.
    pub fn apply(
        &mut self,
        alloc: Global,
        checked: &Checked,
        computed: Computed,
    ) -> Result<u64, Computed>
        ensures applied { IfOk result (λ number. IsApplied checked.now computed number self.old self.new) }
        ensures refused { OnErr result (IsSameWork self.old self.new) }
        ensures computed_returned { IfErr result (λ back. back ≡ computed) }
        ensures own { IsOwnSeen self.old → IsOwnSeen self.new }
    {
        match self.make_changes(alloc, checked, &computed) {
            Ok(number) => Ok(number),
            Err(_) => Err(computed),
        }
    }

    /// Makes the changes of a statement, and then applies them to the view and puts them at the end of the others,
    /// or changes nothing.
    fn make_changes(
        &mut self,
        alloc: Global,
        checked: &Checked,
        computed: &Computed,
    ) -> Result<u64, AllocError>
        ensures applied { IfOk result (λ number. IsApplied checked.now computed.now number self.old self.new) }
        ensures refused { OnErr result (IsSameWork self.old self.new) }
    {
        let Computed::Writes(writes) = computed else {
            return Err(AllocError);
        };
        let (changes, number) = changes_of(alloc, &self.view, checked, writes.as_slice())?;
        let copies = copies_of(alloc, changes.items())?;
        self.view.reserve_for(alloc, &copies)?;
        self.written.append(alloc, changes)?;
        self.view.apply_prepared(copies);
        Ok(number)
    }

    /// The changes so far. It takes no memory.
    pub fn into_changes(self) -> Changes
        ensures { result ≡ work_changes self }
    {
        let Work { view: _, written } = self;
        written.into_changes()
    }
}
