// Lines that are run twice.
ghost use Rattle.line_laws.specs.Determined.{LinesAreDetermined};

use bench_laws::steps_stay_cut;

/// Two runs of the same lines from the same volume end with the same volume, where no answer is E11
/// or ends with E14 or E15; and they print the same where samples are not floats, whose words only
/// have to read back as the value.
pub fn lines_are_determined()
    ensures { LinesAreDetermined }
{
    steps_stay_cut();
}
