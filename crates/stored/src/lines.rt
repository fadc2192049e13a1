// The lines of a text, each with its line's end.
ghost use Rattle.std.specs.Prelude.{◌≡◌, ◌<◌, ◌++◌, length};

// The first line, and what comes after it.
pub fn split_line(text: &[u8]) -> (&[u8], &[u8])
    ensures whole { result.0.now ++ result.1.now ≡ text.now }
    ensures some { 0 < length text.now → 0 < length result.0.now }
{
    let end = text
        .iter()
        .position(|b| *b == b'\n')
        .map_or(text.len(), |i| i + 1);
    text.split_at(end)
}
