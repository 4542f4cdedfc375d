// What a fault says of the trace that it is of, one call for each problem.
ghost use Rattle.std.specs.Prelude.{◌≡◌};
ghost use Rattle.trace_groups.specs.FaultGroups as faults;

use fault_live::Fault;

// The trace that a fault is of, and 0 for one of the file's headers.
pub(crate) fn position_of(fault: &Fault) -> u32
    ensures { result ≡ faults.position_of fault.now }
{
    match *fault {
        Fault::Sequence(position, _) => position,
        Fault::Samples(position, _, _) => position,
        Fault::Interval(position, _, _) => position,
        Fault::Scalar(position, _) => position,
        Fault::Units(position, _, _) => position,
        Fault::Repeated(position, _) => position,
        Fault::Name(position) => position,
        Fault::TraceCount(_, _) | Fault::TextLines(_) => 0,
    }
}

// F1.
pub(crate) fn sequence_facts(fault: &Fault) -> Option<(i128, i128)>
    ensures { result ≡ faults.sequence_facts fault.now }
{
    match *fault {
        Fault::Sequence(position, sequence) => {
            Some((i128::from(sequence) - i128::from(position), 0))
        }
        _ => None,
    }
}

// F2.
pub(crate) fn samples_facts(fault: &Fault) -> Option<(i128, i128)>
    ensures { result ≡ faults.samples_facts fault.now }
{
    match *fault {
        Fault::Samples(_, field, samples) => Some((i128::from(field), i128::from(samples))),
        _ => None,
    }
}

// F3.
pub(crate) fn interval_facts(fault: &Fault) -> Option<(i128, i128)>
    ensures { result ≡ faults.interval_facts fault.now }
{
    match *fault {
        Fault::Interval(_, interval, binary) => Some((i128::from(interval), i128::from(binary))),
        _ => None,
    }
}

// F4.
pub(crate) fn scalar_facts(fault: &Fault) -> Option<(i128, i128)>
    ensures { result ≡ faults.scalar_facts fault.now }
{
    match *fault {
        Fault::Scalar(_, scalar) => Some((i128::from(scalar), 0)),
        _ => None,
    }
}

// F5.
pub(crate) fn units_facts(fault: &Fault) -> Option<(i128, i128)>
    ensures { result ≡ faults.units_facts fault.now }
{
    match *fault {
        Fault::Units(_, units, first) => Some((i128::from(units), i128::from(first))),
        _ => None,
    }
}

// F6.
pub(crate) fn repeated_facts(fault: &Fault) -> Option<(i128, i128)>
    ensures { result ≡ faults.repeated_facts fault.now }
{
    match *fault {
        Fault::Repeated(position, first) => Some((i128::from(position) - i128::from(first), 0)),
        _ => None,
    }
}

// F9.
pub(crate) fn name_facts(fault: &Fault) -> Option<(i128, i128)>
    ensures { result ≡ faults.name_facts fault.now }
{
    match *fault {
        Fault::Name(_) => Some((0, 0)),
        _ => None,
    }
}
