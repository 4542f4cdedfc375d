// Refusals of traces that were brought to the front.
ghost use Rattle.std.specs.Prelude.{◌≡◌};
ghost use Rattle.chosen_traces.specs.Retold.{retold as retold_of};

use bench_rules::Refusal;

/// A refusal of the first traces of the file, told of these, which were brought there: E13 names
/// the trace where it stood before. Takes no memory.
pub fn retold(traces: &[u32], refusal: Refusal) -> Refusal
    ensures { result ≡ retold_of traces.now refusal }
{
    let Refusal::ZeroDivisor(p) = refusal else {
        return refusal;
    };
    match traces.get((p as usize).saturating_sub(1)) {
        Some(trace) => Refusal::ZeroDivisor(*trace),
        None => refusal,
    }
}
