// How a run ends for the one who called the program: the exit status, and what standard error says.
ghost use Rattle.std.specs.Prelude.{◌≡◌};
ghost use Rattle.run_ending.specs.Recovering.{recovery_status};
ghost use Rattle.run_ending.specs.Ending.{exit_status, is_unread, told, told_of_change, told_of_failed, told_of_save};

use script_text::RunEnd;

/// How the save ended.
#[derive(Clone, Copy, Debug, PartialEq, Eq)]
pub enum SaveEnd {
    /// None was begun.
    NotBegun,
    Saved,
    /// OUT is as it was.
    Failed,
    /// OUT is the new file, but a power cut may undo it.
    Unsettled,
    /// FILE was changed by another program, and OUT is as it was.
    Stale,
    /// FILE could not be looked at before the save, and OUT is as it was.
    Unseen,
    /// FILE, whose bytes stay on disk, was changed by another program while they were copied to OUT
    /// itself.
    Doubtful,
}

/// How a recovery ended.
#[derive(Clone, Copy, Debug, PartialEq, Eq)]
pub enum RecoveryEnd {
    /// The old bytes are back, or no journal is there.
    Done,
    /// They are, and standard output did not take that.
    NotTold,
    /// FILE cannot be opened to be written.
    NotOpened,
    /// It is locked: another repair or recovery of it is at work.
    Busy,
    /// What stands under its journal's name is none of FILE. Nothing was written.
    Refused,
    /// A call failed. It may be tried again.
    Failed,
    /// There was no memory. Nothing was done.
    NoMemory,
}

/// The exit status of a recovery.
pub fn recovery_status(end: RecoveryEnd) -> u8
    ensures { result ≡ recovery_status end }
{
    match end {
        RecoveryEnd::Done => 0,
        RecoveryEnd::NotOpened | RecoveryEnd::Refused => 3,
        RecoveryEnd::NotTold | RecoveryEnd::Busy | RecoveryEnd::Failed | RecoveryEnd::NoMemory => 4,
    }
}

/// What standard error says.
#[derive(Clone, Copy, Debug, PartialEq, Eq)]
pub enum Message {
    Nothing,
    AnswersFailed,
    SaveFailed,
    /// FILE, whose bytes stay on disk, could not be read again for the save.
    FileUnread,
    SaveUnsettled,
    FileChanged,
    /// FILE could not be looked at before the save.
    FileUnseen,
    SaveDoubtful,
    /// FILE was changed while it could be read for answers.
    AnswersDoubtful,
    /// FILE could not be read again for the save because it was changed.
    ChangedUnread,
}

/// The exit status.
pub fn exit_status(end: RunEnd, save: SaveEnd) -> u8
    ensures { result ≡ exit_status end save }
{
    match end {
        RunEnd::Done { refused } => match save {
            SaveEnd::NotBegun | SaveEnd::Saved => u8::from(refused > 0),
            SaveEnd::Failed
            | SaveEnd::Unsettled
            | SaveEnd::Stale
            | SaveEnd::Unseen
            | SaveEnd::Doubtful => 4,
        },
        RunEnd::Stopped { .. } => 1,
        RunEnd::Load(_) => 3,
        RunEnd::Script(_) => 4,
        RunEnd::Answers { .. } => 4,
        RunEnd::Save(_) | RunEnd::SaveAtEnd { .. } => 4,
    }
}

/// What standard error says.
pub fn told(end: RunEnd, save: SaveEnd) -> Message
    ensures { result ≡ told end save }
{
    match end {
        RunEnd::Done { .. } => told_of_save(save),
        RunEnd::Save(fault) => told_of_failed(fault.read.is_some(), save),
        // A session tells of each save where it fails.
        RunEnd::Stopped { .. } | RunEnd::Load(_) | RunEnd::Script(_) | RunEnd::SaveAtEnd { .. } =>
            Message::Nothing,
        RunEnd::Answers { .. } => Message::AnswersFailed,
    }
}

/// What standard error says behind that where FILE was changed by another program. Where this is
/// nothing, the program does not look again.
pub fn told_of_change(end: RunEnd, save: SaveEnd) -> Message
    ensures { result ≡ told_of_change end save }
{
    if is_unread(end) {
        return Message::ChangedUnread;
    }
    match save {
        SaveEnd::NotBegun => Message::AnswersDoubtful,
        SaveEnd::Saved
        | SaveEnd::Failed
        | SaveEnd::Unsettled
        | SaveEnd::Stale
        | SaveEnd::Unseen
        | SaveEnd::Doubtful => Message::Nothing,
    }
}

// Whether a read of FILE ended the save.
fn is_unread(end: RunEnd) -> bool
    ensures { result ≡ is_unread end }
{
    match end {
        RunEnd::Save(fault) => fault.read.is_some(),
        RunEnd::Done { .. }
        | RunEnd::Stopped { .. }
        | RunEnd::Load(_)
        | RunEnd::Script(_)
        | RunEnd::Answers { .. }
        | RunEnd::SaveAtEnd { .. } => false,
    }
}

// What standard error says of a save that a failed read of FILE ended, or a failed write.
fn told_of_failed(is_unread: bool, save: SaveEnd) -> Message
    ensures { result ≡ told_of_failed is_unread save }
{
    if is_unread {
        Message::FileUnread
    } else {
        told_of_save(save)
    }
}

pub(crate) fn told_of_save(save: SaveEnd) -> Message
    ensures { result ≡ told_of_save save }
{
    match save {
        SaveEnd::NotBegun | SaveEnd::Saved => Message::Nothing,
        SaveEnd::Failed => Message::SaveFailed,
        SaveEnd::Unsettled => Message::SaveUnsettled,
        SaveEnd::Stale => Message::FileChanged,
        SaveEnd::Unseen => Message::FileUnseen,
        SaveEnd::Doubtful => Message::SaveDoubtful,
    }
}
