// The end of a save and of a recovery.
ghost use Rattle.std.specs.Prelude.{◌≡◌, [], OnOk};
ghost use Rattle.journal_save.specs.Disk.{Over, Known, Tells, IsDurable};
ghost use Rattle.journal_save.specs.Saving.{old_of, IsGuarded, LeavesOnly, IsEither, IsOver};

use crate::disk::Disk;
use std::io::Result;

// Takes the journal away, of a FILE that is all on the disk.
pub(crate) fn finish<D: Disk>(disk: &mut D) -> Result<()>
    requires guarded { Known (D.disk disk.old) (λ d. IsGuarded d.now) }
    requires loose { Known (D.disk disk.old) (λ d. d.now.loose ≡ []) }
    ensures ok { OnOk result (Over (λ d e. IsDurable d.now.file e.now)
        (D.disk disk.old) (D.disk disk.new)) }
    ensures over { Over (IsOver []) (D.disk disk.old) (D.disk disk.new) }
    ensures any_moment { Over (λ d e. LeavesOnly (IsEither (old_of d.now) d.now.file) d e)
        (D.disk disk.old) (D.disk disk.new) }
    ensures cause { Tells result (D.failed disk.old) (D.failed disk.new) }
{
    disk.remove_journal()?;
    disk.sync_folder()
}
