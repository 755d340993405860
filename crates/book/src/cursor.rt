// A place in the bytes of a book.
ghost use Rattle.std.specs.Prelude.{◌≤◌, length};

// A place in some bytes, which is at most just past the last.
#[derive(Drop)]
pub(crate) struct Cursor<'a> {
    pub(crate) bytes: &'a [u8],
    pub(crate) at: usize,
    ghost within: { at ≤ length bytes.now },
}
