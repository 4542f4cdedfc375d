// Laws of the cut, each the contract of a call that does nothing.
ghost use Rattle.frame_cut.specs.Laws.{AtMostOneCut, AtMostOneStuck, NotCutAndStuck, AtMostOneRefusal, NotCutAndRefused, CutOrRefused, LengthByFront, LaidIsJoined, SpliceStaysCut};

/// Two cuts of a file are the same.
pub fn at_most_one_cut()
    ensures { AtMostOneCut }
{}

/// The traces of a file stop at one place at most, for one reason.
pub fn at_most_one_stuck()
    ensures { AtMostOneStuck }
{}

/// A file that is cut does not stop at a trace.
pub fn not_cut_and_stuck()
    ensures { NotCutAndStuck }
{}

/// A file is refused for one reason at most.
pub fn at_most_one_refusal()
    ensures { AtMostOneRefusal }
{}

/// A file that is cut is not refused.
pub fn not_cut_and_refused()
    ensures { NotCutAndRefused }
{}

/// A file is cut, or refused.
pub fn cut_or_refused()
    ensures { CutOrRefused }
{}

/// The length of a trace is read from its front alone.
pub fn length_by_front()
    ensures { LengthByFront }
{}

/// The parts of a file whose traces are laid one behind the other, joined, are the file.
pub fn laid_is_joined()
    ensures { LaidIsJoined }
{}

/// Bytes spliced inside a trace that leave it its length leave the file cut, under the same head.
pub fn splice_stays_cut()
    ensures { SpliceStaysCut }
{}
