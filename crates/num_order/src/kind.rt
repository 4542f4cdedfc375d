// What kind of number stands in some bytes.

/// A kind of number: how many bytes it has (1, 2, 3, 4 or 8), and whether it is in two's complement
/// or without a sign.
#[derive(Clone, Copy, Debug, PartialEq, Eq)]
pub struct Kind {
    pub size: u8,
    pub signed: bool,
}

impl Kind {
    ghost use Rattle.std.specs.Prelude.{◌≡◌};
    ghost use Rattle.std.specs.Bool.{OnTrue};
    ghost use Rattle.num_order.specs.Number.{is_size, IsSize};

    /// Whether there are numbers of this size: of 1, 2, 3, 4 or 8 bytes. Takes no memory.
    pub fn has_known_size(self) -> bool
        ensures value { result ≡ is_size self.size }
        ensures known { OnTrue result (IsSize self.size) }
    {
        matches!(self.size, 1 | 2 | 3 | 4 | 8)
    }
}
