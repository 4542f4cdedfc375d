// What holds of edits of numbers of samples and of fields of many traces, as contracts of calls
// that do nothing.
ghost use Rattle.bench_laws.specs.NumberLaws.{ResizeKeepsBytes, ResizeKeepsSamples, ResizeLeavesTheRest, RenumberIsItsSets, ComputeIsItsSets, ComputeOfANumberIsRenumber};

/// A trace that is given m samples has them in what reading the new bytes from scratch gives,
/// whatever the sample format is: the bytes of its first ones as they were, and zero bytes behind
/// them.
pub fn resize_keeps_bytes()
    ensures { ResizeKeepsBytes }
{}

/// Where samples have values, those of the first ones are as they were too, and zeros stand behind
/// them.
pub fn resize_keeps_samples()
    ensures { ResizeKeepsSamples }
{}

/// Another number of samples of a trace leaves the head, the textual header, the binary header, the
/// extended textual headers, the data trailer records and every other trace as they were.
pub fn resize_leaves_the_rest()
    ensures { ResizeLeavesTheRest }
{}

/// A field of many traces that is counted up is what the sets of each trace's value make, one after
/// another, each of them done.
pub fn renumber_is_its_sets()
    ensures { RenumberIsItsSets }
{}

/// A field of many traces that is computed is what the sets of each trace's number make, one after
/// another, each of them done: each number is computed from the file as it was.
pub fn compute_is_its_sets()
    ensures { ComputeIsItsSets }
{}

/// A field of many traces that is computed from a number, without a step, is the same as counted up
/// from it by 0: the same first refusal, and the same bytes where there is none.
pub fn compute_of_a_number_is_renumber()
    ensures { ComputeOfANumberIsRenumber }
{}
