//! What stands for a byte that has a meaning of its own in DOT.
ghost use Rattle.std.specs.Prelude.{◌≡◌, ◌∷◌, [], MatchOption};
ghost use Rattle.draw_top.specs.Quoting.{escape, mark_up};

/// What stands for a byte in a quoted string, where it does not stand for itself.
pub fn escape_of(byte: u8) -> Option<&'static str>
    ensures { MatchOption result (escape byte ≡ byte ∷ []) (λ s. escape byte ≡ s.now) }
{
    match byte {
        b'"' => Some("\\\""),
        b'\\' => Some("\\\\"),
        _ => None,
    }
}

/// What stands for a byte in a label, where it does not stand for itself.
pub fn entity_of(byte: u8) -> Option<&'static str>
    ensures { MatchOption result (mark_up byte ≡ byte ∷ []) (λ s. mark_up byte ≡ s.now) }
{
    match byte {
        b'&' => Some("&amp;"),
        b'<' => Some("&lt;"),
        b'>' => Some("&gt;"),
        _ => None,
    }
}
