ghost use Rattle.std.specs.Prelude.{◌≡◌};
ghost use Rattle.std.specs.Option.{option_map};
ghost use Rattle.pg_lines.specs.Lines.{first_line};

use crate::cut::cut;

/// The next line without its newline, and the bytes after it. There is none where no byte is left.
pub fn split_line(bytes: &[u8]) -> Option<(&[u8], &[u8])>
    ensures { option_map (λ x. (x.0.now, x.1.now)) result ≡ first_line bytes.now }
{
    if bytes.is_empty() {
        return None;
    }
    match cut(bytes, b'\n') {
        None => Some((bytes, &[])),
        Some((line, rest)) => Some((line, rest)),
    }
}
