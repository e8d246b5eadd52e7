//! Lines of bytes.

ghost use Rattle.std.specs.Prelude.{◌≡◌, ◌≢◌, ◌+◌, ◌≤◌, length, slice_index, []};
ghost use Rattle.script_text.specs.Lines.{IsFirstLine};

/// The first line of the bytes, without its line feed, and the bytes after it. The bytes have one line at least.
pub(crate) fn first_line(bytes: &[u8]) -> (&[u8], &[u8])
    requires { bytes.now ≢ [] }
    ensures { IsFirstLine bytes.now result.0.now result.1.now }
{
    match bytes.iter().position(|c| *c == b'\n') {
        Some(end) => (&bytes[..end], &bytes[end + 1..]),
        None => (bytes, &[]),
    }
}
