// A text from the front of one of its lines on.
ghost use Rattle.std.specs.Prelude.{◌+◌, ◌^◌, ◌<◌, length};

/// A text from the front of a line on, and that line's number, counted from 1.
#[derive(Clone, Copy)]
pub struct Text<'a> {
    pub rest: &'a [u8],
    pub line: u32,
    ghost counted: { line + length rest.now < 2 ^ 32 },
}
