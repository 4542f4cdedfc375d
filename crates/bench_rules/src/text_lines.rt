// The lines of a text block.
ghost use Rattle.std.specs.Prelude.{◌≡◌};
ghost use Rattle.bench_rules.specs.Refused.{is_line as is_line_number};

/// Whether a block has a line q, counted from 1.
pub fn is_line(q: u32) -> bool
    ensures { result ≡ is_line_number q }
{
    q >= 1 && q <= 40
}
