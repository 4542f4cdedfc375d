use refusal_texts::ScriptFault;

/// How the lines of a session ended.
#[derive(Clone, Copy, Debug, PartialEq, Eq)]
pub(crate) enum SessionLines {
    /// All were answered, so many of them refused; the last may have lacked its line feed.
    Whole { refused: u64, is_cut_off: bool },
    /// This line, counted from 1, was refused, and a refusal stops the session.
    Stopped { line: u64 },
    /// The writer of the answers failed when it had taken the first `written` bytes of what is
    /// printed, or `u64::MAX` and more.
    Answers { written: u64 },
    /// No more lines were read. The answers so far have `written` bytes, or `u64::MAX` and more.
    Script { fault: ScriptFault, written: u64 },
}
