use edit_overlay::SaveFault;
use frame_cut::LoadFault;
use refusal_texts::ScriptFault;

/// How a run ended.
#[derive(Clone, Copy, Debug, PartialEq, Eq)]
pub enum RunEnd {
    /// All lines were run, so many of them refused, and the volume was saved, where that was asked
    /// for.
    Done { refused: u64 },
    /// This line, counted from 1, was refused, and a refusal stops the run. Nothing was saved.
    Stopped { line: u64 },
    /// The volume was not loaded. No line was run.
    Load(LoadFault),
    /// The script was not read. No line was run.
    Script(ScriptFault),
    /// The writer of the answers failed when it had taken the first `written` bytes of what is
    /// printed, or `u64::MAX` and more. Nothing was saved.
    Answers { written: u64 },
    /// All lines of a script were run, and the save failed.
    Save(SaveFault),
    /// All lines of a session were answered, so many of them refused, and the save behind the last
    /// failed.
    SaveAtEnd { refused: u64 },
}
