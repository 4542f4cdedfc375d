// The bytes of one trace, held in little: what lies under its runs, and the runs.
ghost use Rattle.std.specs.Prelude.{◌≡◌, ◌+◌, ◌<◌, ◌≤◌, [], ◌∷◌, length, IfErr, IfOk, IfSome, IsErr, OnOk};
ghost use Rattle.room.specs.Refusals.{Rises};
ghost use Rattle.base_file.specs.HeldBytes.{IsStill};
ghost use Rattle.trace_view.specs.Runs.{Fit};
ghost use Rattle.trace_view.specs.Puts.{contents, ShowPut};
ghost use Rattle.trace_store.specs.Slots.{size_of, HasRoomFor, IsInside, IsWholeRange};
ghost use Rattle.trace_store.specs.Faults.{IsFaultOf};
ghost use Rattle.trace_store.specs.Lent.{lent_base, IsAtHand, IsBaseThere, IsBroken, IsLent};
ghost use Rattle.trace_store.specs.Layers.{added_of, base_of_kind, base_of_under, extent_of, laid_over, layers_of_kind, runs_of_kind};
ghost use Rattle.trace_store.specs.declared.base.Base.TheVariants.{Added, Loaded};

use crate::base::Base;
use crate::whole::is_whole;
use base_file::{Held, ReadFault};
use frame_cut::{Extent, Head};
use room::{OutOfMemory, Room};
use smallvec::SmallVec;
use std::boxed::Box;
use std::marker::Model;
use std::mem;
use std::mem::size_of;
use trace_view::{Run, put_run};

/// What a trace has under its runs, and its runs. A trace of the loaded file that has no runs, and
/// less than 2^32 bytes, takes 16 bytes and no memory of its own; one run of at most 16 bytes takes
/// 56 more, a longer one its bytes besides; bytes of a trace's own stand behind 24 more.
#[derive(Drop)]
pub struct Layers {
    kind: Kind,
}

/// Runs in memory of their own, ready to be laid over whatever a trace has; that takes none.
#[derive(Drop)]
pub struct NewRuns {
    kind: Kind,
}

// The first three have no runs: an extent of the loaded file, whose length is in 32 bits where it
// can be, so that all fit in 16 bytes; or bytes of the trace's own. They are those of `Under`,
// which would take 24 bytes within another enum.
#[derive(Drop)]
enum Kind {
    Short { length: u32, start: u64 },
    Long(Box<Extent>),
    Added(Box<Vec<u8>>),
    One(Box<OneRun>),
    Many(Box<ManyRuns>),
}

// What lies under runs.
#[derive(Drop)]
enum Under {
    Short { length: u32, start: u64 },
    Long(Box<Extent>),
    Added(Box<Vec<u8>>),
}

#[derive(Drop)]
struct OneRun {
    under: Under,
    run: [Run; 1],
}

#[derive(Drop)]
struct ManyRuns {
    under: Under,
    runs: Vec<Run>,
}

const _: () = prove!(size_of::<Layers>() == 16);

const _: () = prove!(size_of::<OneRun>() == 56);

impl Model for Layers {
    ghost use Rattle.trace_store.specs.Layers.{Layered, layers_of_kind};

    ghost Value = { Layered };

    ghost view = { λ l. layers_of_kind l.kind };
}

impl Model for NewRuns {
    ghost use Rattle.std.specs.Prelude.{List};
    ghost use Rattle.trace_view.specs.declared.run.Run.{Run};
    ghost use Rattle.trace_store.specs.Layers.{runs_of_kind};

    ghost Value = { List Run };

    ghost view = { λ r. runs_of_kind r.kind };
}

impl Layers {
    // A base without runs. An extent of less than 2^32 bytes takes no memory.
    pub(crate) fn over(room: &mut Room, base: Base) -> Result<Layers, OutOfMemory>
        ensures base { IfOk result (λ l. l ≡ record { base = base; runs = [] }) }
        ensures memory { Rises (IsErr result) room.old room.new }
    {
        let kind = match base {
            Base::Added(bytes) => Kind::Added(room.told_back(Box::new(room.alloc(), bytes))?),
            Base::Loaded(extent) => match u32::try_from(extent.length) {
                Ok(length) => Kind::Short {
                    length,
                    start: extent.start,
                },
                Err(_) => Kind::Long(room.told_back(Box::new(room.alloc(), extent))?),
            },
        };
        Ok(Layers { kind })
    }

    // Bytes of a trace's own, without runs. Takes no memory.
    pub(crate) fn added(bytes: Box<Vec<u8>>) -> Layers
        ensures { result ≡ record { base = Added bytes.value; runs = [] } }
    {
        Layers {
            kind: Kind::Added(bytes),
        }
    }

    /// The extent of the loaded file under the runs, if they lie over one.
    #[inline]
    pub fn extent(&self) -> Option<Extent>
        ensures { result ≡ extent_of self.now.base }
    {
        match &self.kind {
            Kind::Short { length, start } => Some(short(*length, *start)),
            Kind::Long(extent) => Some(**extent),
            Kind::Added(_) => None,
            Kind::One(one) => one.under.extent(),
            Kind::Many(many) => many.under.extent(),
        }
    }

    // The trace's own bytes under the runs, if it has some.
    #[inline]
    fn own(&self) -> &[u8]
        ensures { result.now ≡ added_of self.now.base }
    {
        match &self.kind {
            Kind::Short { .. } => &[],
            Kind::Long(_) => &[],
            Kind::Added(bytes) => bytes.as_slice(),
            Kind::One(one) => one.under.own(),
            Kind::Many(many) => many.under.own(),
        }
    }

    /// The runs that edits laid over it.
    #[inline]
    pub fn runs(&self) -> &[Run]
        ensures { result.now ≡ self.now.runs }
    {
        self.kind.runs()
    }

    // Reads the bytes under the runs, where they are on disk, and tests that with these runs over
    // them they are a whole trace: so what is lent then shows one, whatever the file gives. Where
    // the trace has changed, what is lent shows none.
    pub(crate) fn fetch(
        &self,
        head: &Head,
        loaded: &mut Held,
        runs: &[Run],
    ) -> Result<(), ReadFault>
        requires inside { IsInside loaded.old.bytes self.now.base }
        requires room { HasRoomFor loaded.old self.now.base }
        requires fit { Fit runs.now (size_of self.now.base) }
        ensures still { IsStill loaded.old loaded.new }
        ensures lent { OnOk result (IsLent loaded.new head.now self.now.base runs.now) }
        ensures fault { IfErr result (IsFaultOf
            (IsBroken loaded.new head.now self.now.base runs.now) loaded.old loaded.new) }
    {
        self.read(loaded)?;
        if !is_whole(head, self.lent(loaded), runs) {
            return Err(ReadFault::Changed);
        }
        Ok(())
    }

    // Reads the bytes under the runs, where they are on disk.
    fn read(&self, loaded: &mut Held) -> Result<(), ReadFault>
        requires inside { IsInside loaded.old.bytes self.now.base }
        requires room { HasRoomFor loaded.old self.now.base }
        ensures still { IsStill loaded.old loaded.new }
        ensures at_hand { OnOk result (IsAtHand loaded.new self.now.base) }
        ensures fault { IfErr result (IsFaultOf ⊥ loaded.old loaded.new) }
    {
        match self.extent() {
            Some(extent) => loaded.fetch(extent.start, extent.length as usize),
            None => Ok(()),
        }
    }

    // What is lent of the bytes under the runs.
    #[inline]
    pub(crate) fn lent<'a>(&'a self, loaded: &'a Held) -> &'a [u8]
        requires { IsBaseThere loaded.now self.now.base }
        ensures { result.now ≡ lent_base loaded.now self.now.base }
    {
        match self.extent() {
            Some(extent) => loaded.lent(extent.start, extent.length as usize),
            None => self.own(),
        }
    }

    // How many bytes there are under the runs.
    #[inline]
    pub(crate) fn size(&self) -> u64
        ensures { result ≡ size_of self.now.base }
    {
        match self.extent() {
            Some(extent) => extent.length,
            None => self.own().len() as u64,
        }
    }

    // Where byte `at` under the runs, counted from 0, lies in the loaded file; none for a trace
    // that has bytes of its own.
    #[inline]
    pub(crate) fn loaded_place(&self, at: u64) -> Option<usize> {
        let extent = self.extent()?;
        Some(extent.start.saturating_add(at) as usize)
    }

    // The extent of a trace that has no runs and lies in the loaded file.
    pub(crate) fn whole_range(&self) -> Option<Extent>
        ensures range { IfSome result (IsWholeRange self.now) }
        ensures none { self.now.runs ≡ [] → result ≡ extent_of self.now.base }
    {
        if !self.runs().is_empty() {
            return None;
        }
        self.extent()
    }

    // The runs with these bytes laid over the trace from place `at` on, counted from 0. Takes
    // memory for the new runs. One run needs no list.
    pub(crate) fn runs_with(
        &self,
        room: &mut Room,
        at: u64,
        bytes: &[u8],
    ) -> Result<NewRuns, OutOfMemory>
        requires fit { Fit self.now.runs (size_of self.now.base) }
        requires some { 0 < length bytes.now }
        requires inside { at + length bytes.now ≤ size_of self.now.base }
        ensures fit { IfOk result (λ list. Fit list (size_of self.now.base)) }
        ensures bytes { IfOk result
            (λ list. ShowPut (size_of self.now.base) self.now.runs at bytes.now list) }
        ensures memory { Rises (IsErr result) room.old room.new }
    {
        if self.runs().is_empty() {
            return NewRuns::one(room, at, bytes);
        }
        let runs = put_run(room, self.size(), self.runs(), at, bytes)?;
        NewRuns::of(room, runs)
    }

    // Lays the runs in place of those that the trace has. Takes no memory.
    pub(crate) fn lay(&mut self, runs: NewRuns)
        ensures { self.new ≡ laid_over self.old runs }
    {
        let own = mem::replace(
            &mut self.kind,
            Kind::Short {
                length: 0,
                start: 0,
            },
        );
        self.kind = runs.kind.over(own.under());
    }
}

impl NewRuns {
    // One run of these bytes from place `at` on, counted from 0. Takes memory.
    fn one(room: &mut Room, at: u64, bytes: &[u8]) -> Result<NewRuns, OutOfMemory>
        ensures contents { IfOk result (λ new. contents new ≡ (at, bytes.now) ∷ []) }
        ensures memory { Rises (IsErr result) room.old room.new }
    {
        let own = room.told(SmallVec::from_slice(room.alloc(), bytes))?;
        NewRuns::of_run(room, Run { at, bytes: own })
    }

    // The run alone. Takes memory.
    fn of_run(room: &mut Room, run: Run) -> Result<NewRuns, OutOfMemory>
        ensures runs { IfOk result (λ new. new ≡ run ∷ []) }
        ensures memory { Rises (IsErr result) room.old room.new }
    {
        let one = OneRun {
            under: Under::Short {
                length: 0,
                start: 0,
            },
            run: [run],
        };
        let one = room.told_back(Box::new(room.alloc(), one))?;
        Ok(NewRuns {
            kind: Kind::One(one),
        })
    }

    // Runs that were made. Takes memory.
    fn of(room: &mut Room, mut runs: Vec<Run>) -> Result<NewRuns, OutOfMemory>
        ensures runs { IfOk result (λ new. new ≡ runs.items) }
        ensures memory { Rises (IsErr result) room.old room.new }
    {
        if runs.len() == 1
            && let Some(run) = runs.pop()
        {
            return NewRuns::of_run(room, run);
        }
        let many = ManyRuns {
            under: Under::Short {
                length: 0,
                start: 0,
            },
            runs,
        };
        let many = room.told_back(Box::new(room.alloc(), many))?;
        Ok(NewRuns {
            kind: Kind::Many(many),
        })
    }

    // The runs.
    #[inline]
    pub(crate) fn as_slice(&self) -> &[Run]
        ensures { result.now ≡ self.now }
    {
        self.kind.runs()
    }
}

impl Kind {
    // The runs.
    #[inline]
    fn runs(&self) -> &[Run]
        ensures { result.now ≡ runs_of_kind self.now }
    {
        match self {
            Kind::One(one) => &one.run,
            Kind::Many(many) => many.runs.as_slice(),
            _ => &[],
        }
    }

    // What lies under the runs.
    fn under(self) -> Under
        ensures { base_of_under result ≡ base_of_kind self }
    {
        match self {
            Kind::Short { length, start } => Under::Short { length, start },
            Kind::Long(extent) => Under::Long(extent),
            Kind::Added(bytes) => Under::Added(bytes),
            Kind::One(one) => Box::into_inner(one).under,
            Kind::Many(many) => Box::into_inner(many).under,
        }
    }

    // These runs over another base.
    fn over(self, under: Under) -> Kind
        ensures { layers_of_kind result
            ≡ record { base = base_of_under under; runs = runs_of_kind self } }
    {
        match self {
            Kind::One(mut one) => {
                one.under = under;
                Kind::One(one)
            }
            Kind::Many(mut many) => {
                many.under = under;
                Kind::Many(many)
            }
            _ => under.alone(),
        }
    }
}

impl Under {
    // The extent of the loaded file, if it is one.
    #[inline]
    fn extent(&self) -> Option<Extent>
        ensures { result ≡ extent_of (base_of_under self.now) }
    {
        match self {
            Under::Short { length, start } => Some(short(*length, *start)),
            Under::Long(extent) => Some(**extent),
            Under::Added(_) => None,
        }
    }

    // The trace's own bytes, if it has some.
    #[inline]
    fn own(&self) -> &[u8]
        ensures { result.now ≡ added_of (base_of_under self.now) }
    {
        match self {
            Under::Short { .. } => &[],
            Under::Long(_) => &[],
            Under::Added(bytes) => bytes.as_slice(),
        }
    }

    // This without runs.
    fn alone(self) -> Kind
        ensures { layers_of_kind result ≡ record { base = base_of_under self; runs = [] } }
    {
        match self {
            Under::Short { length, start } => Kind::Short { length, start },
            Under::Long(extent) => Kind::Long(extent),
            Under::Added(bytes) => Kind::Added(bytes),
        }
    }
}

// An extent of less than 2^32 bytes.
#[inline]
fn short(length: u32, start: u64) -> Extent
    ensures start { result.start ≡ start }
    ensures length { result.length ≡ length }
{
    Extent {
        start,
        length: length as u64,
    }
}
