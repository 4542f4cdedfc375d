// What holds of the slices that are kept, as contracts of calls that do nothing.
ghost use Rattle.bench_laws.specs.KeptLaws.{KeptSlicesStay};

/// After an edit that is not refused each slice whose number is still kept has the rows that it had
/// before, so that what is kept need not be read again. The field map keeps the geometry names at
/// places that each trace has, as that of a bench does.
pub fn kept_slices_stay()
    ensures { KeptSlicesStay }
{}
