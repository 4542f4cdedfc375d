ghost use Rattle.std.specs.Prelude.{◌≡◌};

use bench_core::Bench;
use edit_overlay::PassFault;
use script_text::RunEnd;

/// How a run or a session over a file that stays on disk ended, with the volume as it is then: it
/// tells whether each later read gave the bytes of the load. Or why the file was refused: no line
/// was read then.
#[derive(Drop)]
pub struct DiskRun {
    pub end: RunEnd,
    pub volume: Result<Bench, PassFault>,
}

impl DiskRun {
    /// How it ended. Gives back the memory of the volume, and closes its file.
    pub fn close(self) -> RunEnd
        ensures { result ≡ self.end }
    {
        let end = self.end;
        close_volume(self.volume);
        end
    }
}

pub(crate) fn close_volume(volume: Result<Bench, PassFault>) {
    match volume {
        Ok(bench) => bench.close(),
        Err(_refused) => {}
    }
}
