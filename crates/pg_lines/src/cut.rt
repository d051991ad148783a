ghost use Rattle.std.specs.Prelude.{◌≡◌, ◌==◌, position};
ghost use Rattle.std.specs.Option.{option_map};
ghost use Rattle.pg_lines.specs.Lines.{cut_at};

fn place_of(bytes: &[u8], separator: u8) -> Option<usize>
    ensures { result ≡ position (λ b. b == separator) bytes.now }
{
    bytes.iter().position(|byte| *byte == separator)
}

/// The bytes before the first `separator` and those after it, or none where it doesn't occur.
pub fn cut(bytes: &[u8], separator: u8) -> Option<(&[u8], &[u8])>
    ensures { option_map (λ x. (x.0.now, x.1.now)) result ≡ cut_at separator bytes.now }
{
    let at = place_of(bytes, separator)?;
    let (before, _) = bytes.split_at(at);
    let (_, behind) = bytes.split_at(at + 1);
    Some((before, behind))
}
