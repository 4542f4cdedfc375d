ghost use Rattle.std.specs.Prelude.{◌≡◌, ◌≤◌, IfOk, IsErr, OnErr};
ghost use Rattle.room.specs.Refusals.{Counts, Rises, one_more};

use crate::out_of_memory::OutOfMemory;
use std::alloc::{AllocError, AllocFailed, Global};
use std::marker::Model;

/// The memory that there is, with how often it was refused: a clause sees that number. It stays at
/// the highest number of 64 bits.
#[derive(Drop)]
pub struct Room {
    alloc: Global,
    refusals: u64,
}

impl Model for Room {
    ghost use Rattle.std.specs.Prelude.{ℕ};

    ghost Value = { ℕ };

    ghost view = { λ r. r.refusals };
}

impl Room {
    /// The memory of that allocator, none of it refused yet.
    pub fn new(alloc: Global) -> Room
        ensures { result ≡ 0 }
    {
        Room { alloc, refusals: 0 }
    }

    /// The allocator, for what is asked next: its answer goes to `told` or `told_back`.
    pub fn alloc(&self) -> Global {
        self.alloc
    }

    /// Hands on what a call answered that takes memory, and counts a refusal.
    pub fn told<T>(&mut self, answer: Result<T, AllocError>) -> Result<T, OutOfMemory>
        ensures ok { IfOk result (λ value. answer ≡ Ok value) }
        ensures err { OnErr result (IsErr answer) }
        ensures counts { Counts result self.old self.new }
        ensures rises { Rises (IsErr result) self.old self.new }
    {
        match answer {
            Ok(value) => Ok(value),
            Err(_) => Err(self.refused()),
        }
    }

    /// The same of a call that hands back what it could not store: that is let go.
    pub fn told_back<T, B: Drop>(
        &mut self,
        answer: Result<T, AllocFailed<B>>,
    ) -> Result<T, OutOfMemory>
        ensures ok { IfOk result (λ value. answer ≡ Ok value) }
        ensures err { OnErr result (IsErr answer) }
        ensures counts { Counts result self.old self.new }
        ensures rises { Rises (IsErr result) self.old self.new }
    {
        match answer {
            Ok(value) => Ok(value),
            Err(_) => Err(self.refused()),
        }
    }

    // Counts one refusal.
    fn refused(&mut self) -> OutOfMemory
        ensures counts { self.new ≡ one_more self.old }
        ensures never_falls { self.old ≤ self.new }
    {
        self.refusals = self.refusals.saturating_add(1);
        OutOfMemory
    }
}
