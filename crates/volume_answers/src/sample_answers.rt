// The answers about the samples of all traces, and about the faults of the file.
ghost use Rattle.std.specs.Prelude.{◌≡◌, ◌<◌, ◌^◌, length, map, IsErrOf, ◌≢◌, IfErr};
ghost use Rattle.room.specs.Refusals.{Rises};
ghost use Rattle.trace_record.specs.Packed.{record_in};
ghost use Rattle.bench_rules.specs.declared.query.Query.TheVariants as queries;
ghost use Rattle.bench_rules.specs.Answer.{answer, IsReply};
ghost use Rattle.bench_rules.specs.Live.{AreRecordsOf, AreTotalsOf, AreTriplesOf};
ghost use Rattle.bench_rules.specs.ReadFaults.{IsFaultOfNoRead};
ghost use Rattle.bench_rules.specs.State.{State};

use crate::of_headers::head_facts;
use crate::report_answers::{faults, totals};
use bench_rules::{Answer, AskFault, has_opaque_samples};
use edit_overlay::Overlay;
use fault_live::Faults;
use range_stats::Totals;
use record_table::Records;
use room::Room;
use trace_record::PackedRecord;

/// The statistics of all samples. Takes no memory and looks at no trace. Refused: E12.
pub fn totals_answer(overlay: &Overlay<PackedRecord>, counted: &Totals) -> Result<Answer, AskFault>
    ensures reply { (s : State) → s.volume ≡ overlay.now.volume → AreTotalsOf s counted.now →
        result ≡ answer s queries.Totals }
    ensures other { IfErr result (λ fault. fault ≢ AskFault.OutOfMemory) }
    ensures unread { IfErr result IsFaultOfNoRead }
{
    if has_opaque_samples(overlay) {
        return Err(AskFault::NoValues);
    }
    Ok(totals(counted))
}

/// What the headers contradict each other in, or the traces each other. Takes memory for the list
/// and while it is made; refused for want of it alone, E11. Looks at no trace.
pub fn faults_answer(
    room: &mut Room,
    overlay: &Overlay<PackedRecord>,
    triples: &Faults,
) -> Result<Answer, AskFault>
    requires { length overlay.now.payloads < 2 ^ 32 }
    ensures reply { (s : State) → s.volume ≡ overlay.now.volume →
        AreRecordsOf s (map record_in overlay.now.payloads) → AreTriplesOf s triples.now →
        IsReply s queries.Faults result }
    ensures unread { IfErr result IsFaultOfNoRead }
    ensures memory { Rises (IsErrOf result AskFault.OutOfMemory) room.old room.new }
{
    let head = head_facts(overlay.head(), overlay.text(), overlay.bin());
    faults(room, triples, &Records::new(overlay.payloads()), &head)
}
