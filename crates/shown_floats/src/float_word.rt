ghost use Rattle.std.specs.Prelude.{◌≤◌};

/// The word of a float, seen as the list of its bytes. It lies in 26 bytes of its own.
#[derive(Clone, Copy)]
pub struct FloatWord {
    pub(crate) bytes: [u8; 25],
    pub(crate) length: u8,
    ghost short: { length ≤ 25 },
}
