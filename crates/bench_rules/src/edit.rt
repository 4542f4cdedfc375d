use crate::chosen::Chosen;
use crate::chosen_edit::ChosenEdit;
use crate::field::Field;
use crate::items::Items;
use crate::mapping::Mapping;
use crate::operand::Operand;
use crate::operator::Operator;
use crate::text::Text;

/// One edit of a volume. Traces count from 1, samples of a trace from 0, lines of the textual
/// header from 1.
#[derive(Drop)]
pub enum Edit {
    /// `Set(p, field, value)`: the value into a header field of trace p. Refused, in this order:
    /// E01, E02, E03, E04, E06.
    Set(u32, Field, i128),
    /// `SetBin(field, value)`: the value into a field of the binary header. Refused, in this order:
    /// E02, E03, E04, E06.
    SetBin(Field, i128),
    /// What the reading of the load asked for, written into the binary header where the revision
    /// has a place for it: the number of samples, the format, the fixed length flag, the number of
    /// extended textual headers. Refused: E06 where a load without the reading would then give
    /// other parts. Takes no memory.
    Declare,
    /// The bytes of no trace behind the last one taken away, where there are any. Never refused.
    /// Takes no memory.
    DropTail,
    /// `SetText(q, text)`: the text as line q of the textual header, in its code, with blanks up to
    /// 80 characters. Refused, in this order: E03, E07.
    SetText(u32, Text),
    /// `Map(name, field)`: the name bound to the place of the field, in trace headers. Refused, in
    /// this order: E02, E08.
    Map(Text, Field),
    /// `MapAs(mapping)`: the geometry names of the mapping bound to its places, one after another:
    /// whole or not at all. Refused: E08 of the first name that is. (None of them is: each is bound
    /// always, and may stand at its place.)
    MapAs(Mapping),
    /// `Unmap(name)`: the name no longer bound. Refused: E08.
    Unmap(Text),
    /// `Patch(p, k, values)`: the values over samples k, k + 1 and so on of trace p. No values at a
    /// k up to the number of samples change nothing. Refused, in this order: E01, E12, E04, E05.
    Patch(u32, u32, Items<i128>),
    /// `Blank(p)`: a trace of zeros in front of trace p, or behind the last, with as many header
    /// extensions and samples as the binary header says. Refused, in this order: E01, E09, E10.
    Blank(u32),
    /// `Copy(q, p)`: trace q as it is now in front of trace p, or behind the last. Refused, in this
    /// order: E01 for q, E01 for p, E09, E10.
    Copy(u32, u32),
    /// `Delete(p)`: trace p out. Refused: E01. Takes no memory.
    Delete(u32),
    /// `Move(a, b)`: trace a out, and in again so that it is trace b. Refused, in this order: E01
    /// for a, E01 for b.
    Move(u32, u32),
    /// `MoveBlock(a, b, to)`: traces a to b, as one block, out, and in again in their order so that
    /// the first of them is trace `to`. Refused, in this order: E01 for a, E01 for b, E01 for `to`,
    /// which counts in the file without the block: from 1 to one more than the traces left.
    MoveBlock(u32, u32, u32),
    /// `Resize(p, m)`: trace p with m samples: its first ones as they were, zeros behind them.
    /// Refused, in this order: E01, E04, E06, E09.
    Resize(u32, i128),
    /// The field of each trace of the range counted up from the first value by the step: whole or
    /// not at all. Refused, in this order: E01 for its first trace, E01 for its last, then the
    /// first refusal of the lowest trace's value, each judged in the file as it was: E02, E03, E04,
    /// E06.
    Renumber {
        first_trace: u32,
        last_trace: u32,
        field: Field,
        first_value: i128,
        step: i128,
    },
    /// The field of each trace of the range from the source by the steps, strictly one after
    /// another, on whole numbers of that trace as it was: whole or not at all. Refused, in this
    /// order: E01 for its first trace, E01 for its last, E02 where a field has no place, then the
    /// first refusal of the lowest trace that has one: E03 where it lacks a place, E13 or E04 of
    /// the first step that has no number, E04 where the last one does not fit the field, E06.
    Compute {
        first_trace: u32,
        last_trace: u32,
        field: Field,
        source: Operand,
        steps: Items<(Operator, Operand)>,
    },
    /// The traces of the range in the order of the numbers of these fields, of which the first two
    /// that differ tell; those with the same numbers stand as they stood. The numbers of a field
    /// fall where the item of `falling` at its place is true, and rise where it is false; a field
    /// for which there is no item tells nothing. Refused, in this order: E01 for the first trace,
    /// E01 for the last, E02 where a field has no place, E03 where one of the traces lacks a place.
    Sort {
        first_trace: u32,
        last_trace: u32,
        fields: Items<Field>,
        falling: Items<bool>,
    },
    /// An edit of the traces that are chosen: whole or not at all. Refused, in this order: E01 for
    /// the first trace of the range, E01 for its last, E02 where a field of the edit or of a
    /// condition has no place, E12 where a condition asks for values of samples and these have
    /// none, E03 where a trace of the range lacks the place of a condition, then what the edit
    /// refuses of the chosen traces. The list of these takes memory, so that E11 may come in the
    /// place of any refusal but E01.
    OfChosen(Chosen, ChosenEdit),
}
