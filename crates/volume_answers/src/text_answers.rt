// The answers about the text blocks of a volume. None looks at a trace.
ghost use Rattle.std.specs.Prelude.{◌≡◌, ◌-◌, ◌≤◌, length, map, option_map, slice_get, IfOk, IfErr, IsErrOf, ◌≢◌};
ghost use Rattle.std.specs.List.{range_with_len};
ghost use Rattle.room.specs.Refusals.{Rises};
ghost use Rattle.text_block.specs.Lines.{shown_line};
ghost use Rattle.bench_rules.specs.declared.ask_fault.AskFault.TheVariants.{OutOfMemory as no_memory};
ghost use Rattle.bench_rules.specs.declared.query.Query.TheVariants as queries;
ghost use Rattle.bench_rules.specs.Answer.{answer, text_blocks, IsReply};
ghost use Rattle.bench_rules.specs.ReadFaults.{IsFaultOfNoRead};
ghost use Rattle.bench_rules.specs.State.{State};

use crate::stanzas::add_stanzas;
use bench_rules::{Answer, AskFault, Items, Text, is_line};
use edit_overlay::Overlay;
use room::Room;
use text_block::{TEXT_BLOCK_BYTES, code_of, line};
use trace_record::PackedRecord;

/// Line q, counted from 1, of block b, where the textual header is block 0. Takes memory. Refused:
/// E03, else E11 alone.
pub fn line_answer(
    room: &mut Room,
    overlay: &Overlay<PackedRecord>,
    b: u32,
    q: u32,
) -> Result<Answer, AskFault>
    ensures reply { (s : State) → s.volume ≡ overlay.now.volume →
        IsReply s (queries.Line b q) result }
    ensures unread { IfErr result IsFaultOfNoRead }
    ensures memory { Rises (IsErrOf result AskFault.OutOfMemory) room.old room.new }
{
    if !is_line(q) {
        return Err(AskFault::NoPlace);
    }
    let Some(block) = overlay.block(b) else {
        return Err(AskFault::NoPlace);
    };
    Ok(Answer::Line(Text::new(line(room, block, q)?)))
}

/// The 40 lines of block b. Takes memory. Refused: E03, else E11 alone.
pub fn lines_answer(
    room: &mut Room,
    overlay: &Overlay<PackedRecord>,
    b: u32,
) -> Result<Answer, AskFault>
    ensures reply { (s : State) → s.volume ≡ overlay.now.volume →
        IsReply s (queries.Lines b) result }
    ensures unread { IfErr result IsFaultOfNoRead }
    ensures memory { Rises (IsErrOf result AskFault.OutOfMemory) room.old room.new }
{
    let Some(block) = overlay.block(b) else {
        return Err(AskFault::NoPlace);
    };
    match lines_of(room, block) {
        Ok(lines) => Ok(Answer::Lines(lines)),
        Err(fault) => Err(fault),
    }
}

// The 40 lines of a block, as they are shown.
fn lines_of(room: &mut Room, block: &[u8; TEXT_BLOCK_BYTES]) -> Result<Items<Text>, AskFault>
    ensures ok { IfOk result (λ lines. lines ≡ map (shown_line block.now) (range_with_len 1 40)) }
    ensures err { IfErr result (λ fault. fault ≡ no_memory) }
    ensures memory { Rises (IsErrOf result AskFault.OutOfMemory) room.old room.new }
{
    let mut lines = room.told(Vec::with_capacity(room.alloc(), 40))?;
    for before in 0..40u32 {
        let text = line(room, block, before + 1)?;
        room.told_back(lines.push(Text::new(text)))?;
    }
    Ok(Items::new(lines))
}

/// The code of block b. Takes no memory. Refused: E03.
pub fn code_answer(overlay: &Overlay<PackedRecord>, b: u32) -> Result<Answer, AskFault>
    ensures reply { (s : State) → s.volume ≡ overlay.now.volume →
        result ≡ answer s (queries.Code b) }
    ensures other { IfErr result (λ fault. fault ≢ AskFault.OutOfMemory) }
    ensures unread { IfErr result IsFaultOfNoRead }
{
    match overlay.block(b) {
        Some(block) => Ok(Answer::Code(code_of(block))),
        None => Err(AskFault::NoPlace),
    }
}

/// The stanzas of all extended textual headers and data trailer records. Takes memory; refused for
/// want of it alone, E11.
pub fn stanzas_answer(room: &mut Room, overlay: &Overlay<PackedRecord>) -> Result<Answer, AskFault>
    requires blocks { length overlay.now.volume.blocks ≡ overlay.now.volume.head.blocks }
    requires trailer { length overlay.now.volume.trailer ≡ overlay.now.volume.head.trailer }
    ensures reply { (s : State) → s.volume ≡ overlay.now.volume → IsReply s queries.Stanzas result }
    ensures unread { IfErr result IsFaultOfNoRead }
    ensures memory { Rises (IsErrOf result AskFault.OutOfMemory) room.old room.new }
{
    let mut all = Vec::new(room.alloc());
    for before in 0..text_block_count(overlay) {
        let Some(block) = text_block(overlay, before + 1) else {
            unreachable!()
        };
        add_stanzas(room, &mut all, before + 1, block)?;
    }
    Ok(Answer::Stanzas(Items::new(all)))
}

// The number of extended textual headers and data trailer records.
fn text_block_count(overlay: &Overlay<PackedRecord>) -> u64
    requires blocks { length overlay.now.volume.blocks ≡ overlay.now.volume.head.blocks }
    requires trailer { length overlay.now.volume.trailer ≡ overlay.now.volume.head.trailer }
    ensures { result ≡ length (text_blocks overlay.now.volume) }
{
    let head = overlay.head();
    u64::from(head.blocks) + u64::from(head.trailer)
}

// The extended textual header n, counted from 1, or behind the last the data trailer record.
fn text_block(overlay: &Overlay<PackedRecord>, n: u64) -> Option<&[u8; TEXT_BLOCK_BYTES]>
    requires blocks { length overlay.now.volume.blocks ≡ overlay.now.volume.head.blocks }
    requires trailer { length overlay.now.volume.trailer ≡ overlay.now.volume.head.trailer }
    requires first { 1 ≤ n }
    requires last { n ≤ length (text_blocks overlay.now.volume) }
    ensures { option_map (λ x. x.now) result ≡ slice_get (text_blocks overlay.now.volume)
        (n - 1) }
{
    let blocks = u64::from(overlay.head().blocks);
    if n <= blocks {
        overlay.block(n as u32)
    } else {
        overlay.trailer((n - blocks) as u32)
    }
}
