// A text cut at a byte.
ghost use Rattle.std.specs.Prelude.{◌≡◌, ◌==◌, IfSome, IfNone, position, false, true};
ghost use Rattle.std.specs.List.{before_first, after_first, list_any};

/// What stands in front of the first such byte and behind it, or `None` where there is none.
pub fn split_once(text: &[u8], mark: u8) -> Option<(&[u8], &[u8])>
    ensures none { IfNone result (list_any (λ b. b == mark) text.now ≡ false) }
    ensures some { IfSome result (λ parts. list_any (λ b. b == mark) text.now ≡ true) }
    ensures front { IfSome result (λ parts. parts.0.now ≡ before_first (λ b. b == mark) text.now) }
    ensures back { IfSome result (λ parts. parts.1.now ≡ after_first (λ b. b == mark) text.now) }
{
    let at = first_place(text, mark)?;
    let (front, back) = text.split_at(at);
    Some((front, &back[1..]))
}

// Where the first such byte stands.
fn first_place(text: &[u8], mark: u8) -> Option<usize>
    ensures { result ≡ position (λ b. b == mark) text.now }
{
    text.iter().position(|byte| *byte == mark)
}
