// The command that binds a name, or several at once.
ghost use Rattle.std.specs.Prelude.{◌≡◌, IsErrOf};
ghost use Rattle.room.specs.Refusals.{Rises};
ghost use Rattle.script_words.specs.Commands.{IsRead};
ghost use Rattle.script_words.specs.MapCommands.{mapping_in, read_map};
ghost use Rattle.script_words.specs.Words.{words_of};

use crate::command::Command;
use crate::line_fault::LineFault;
use crate::parse::{map_name, one};
use crate::words::Words;
use bench_rules::{Edit, Mapping};
use room::Room;

pub(crate) fn map(room: &mut Room, words: Words) -> Result<Command, LineFault>
    ensures read { IsRead (read_map (words_of words.entry)) result }
    ensures memory { Rises (IsErrOf result LineFault.OutOfMemory) room.old room.new }
{
    match mapping(words.rest()) {
        Some(mapping) => Ok(Command::Apply(Edit::MapAs(mapping))),
        None => map_name(room, words),
    }
}

// The mapping that the words of the text are, where one word is one.
fn mapping(text: &str) -> Option<Mapping>
    ensures { result ≡ mapping_in (words_of text.now) }
{
    match one(Words::new(text))? {
        "shot" => Some(Mapping::Shot),
        "usual" => Some(Mapping::Usual),
        _ => None,
    }
}
