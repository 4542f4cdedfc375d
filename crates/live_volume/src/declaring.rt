// What the reading of the load asked for, written into the binary header, and the bytes of no trace
// that it keeps taken away.
ghost use Rattle.std.specs.Prelude.{◌≡◌, OnErr, None, ◌≢◌, IfErr};
ghost use Rattle.std.specs.List.{list_all};
ghost use Rattle.edit_overlay.specs.Reads.{Follow, HaveAgreed};
ghost use Rattle.bench_rules.specs.declared.edit.Edit.TheVariants as edits;
ghost use Rattle.bench_rules.specs.Refused.{first_refusal};
ghost use Rattle.bench_rules.specs.Steps.{IsAfter, Step};
ghost use Rattle.declared_frame.specs.Written.{can_declare as can_declare_in, has_samples as has_samples_in};
ghost use Rattle.live_volume.specs.Held.{IsReadAs};
ghost use Rattle.bench_rules.specs.ReadFaults.{IsRefusalOfReads};

use crate::live_volume::LiveVolume;
use bench_rules::Refusal;
use declared_frame::{declared, fields_hold, has_samples, needs_lengths};

impl LiveVolume {
    // What the reading asks for in the binary header, or E06. Looks at no trace: the records tell
    // the numbers of samples that the traces' headers say.
    pub(crate) fn declare(&mut self) -> Result<(), Refusal>
        ensures step { HaveAgreed self.new.reads →
            Step self.old.state edits.Declare result self.new.state }
        ensures err { OnErr result (self.new.state ≡ self.old.state) }
        ensures same { IsReadAs self.old.state self.new.state }
        ensures reads { Follow self.old.reads self.new.reads }
        ensures reads_tell { IfErr result (IsRefusalOfReads self.old.reads self.new.reads) }
        ensures loaded { self.new.loaded ≡ self.old.loaded }
        ensures looks { self.new.looks ≡ self.old.looks }
        ensures other { IfErr result (λ refusal. refusal ≢ Refusal.OutOfMemory) }
    {
        if !self.can_declare() {
            return Err(Refusal::Frame);
        }
        self.put_declared();
        Ok(())
    }

    // The bytes of no trace behind the last one taken away, where there are any.
    pub(crate) fn drop_tail(&mut self)
        ensures after { HaveAgreed self.new.reads →
            IsAfter self.old.state edits.DropTail self.new.state }
        ensures same { IsReadAs self.old.state self.new.state }
        ensures reads { Follow self.old.reads self.new.reads }
        ensures loaded { self.new.loaded ≡ self.old.loaded }
        ensures looks { self.new.looks ≡ self.old.looks }
    {
        self.overlay.drop_tail();
    }

    // Whether a load without the reading would cut the file into the same parts.
    fn can_declare(&self) -> bool
        ensures { HaveAgreed self.now.reads →
            result ≡ can_declare_in self.now.state.reading self.now.state.volume }
    {
        let head = self.overlay.head();
        if !fields_hold(self.reading, head) {
            return false;
        }
        !needs_lengths(self.reading, head) || self.each_has_samples()
    }

    // Whether the main header of each trace gives it the head's number of samples, or leaves it to
    // the head.
    fn each_has_samples(&self) -> bool
        ensures { HaveAgreed self.now.reads → result ≡ list_all
            (has_samples_in self.now.state.volume.head) self.now.state.volume.traces }
    {
        let head = self.overlay.head();
        for k in 0..self.count() {
            if !has_samples(head, self.held(k + 1).samples_field) {
                return false;
            }
        }
        true
    }

    // What the reading asks for in the binary header, where nothing refuses it.
    fn put_declared(&mut self)
        requires { HaveAgreed self.old.reads → first_refusal self.old.state edits.Declare ≡ None }
        ensures after { HaveAgreed self.new.reads →
            IsAfter self.old.state edits.Declare self.new.state }
        ensures same { IsReadAs self.old.state self.new.state }
        ensures reads { Follow self.old.reads self.new.reads }
        ensures loaded { self.new.loaded ≡ self.old.loaded }
        ensures looks { self.new.looks ≡ self.old.looks }
    {
        let new = declared(self.reading, self.overlay.head(), self.overlay.bin());
        self.overlay.put_head(0, &new);
    }
}
