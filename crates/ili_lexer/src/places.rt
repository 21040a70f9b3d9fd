// Lines and columns.
ghost use Rattle.std.specs.Prelude.{◌≡◌, ◌≤◌, length};
ghost use Rattle.ili_lexer.specs.Places.{StandsAt, line_after, column_after};

/// A byte of a text, by its number from 0, its line and its column.
#[derive(Clone, Copy)]
pub struct Place {
    pub offset: usize,
    pub line: u32,
    pub column: u32,
}

impl Place {
    pub fn start(text: &[u8]) -> Place
        ensures offset { result.offset ≡ 0 }
        ensures stands { StandsAt text.now result.offset result.line result.column }
    {
        let _length = text.len();
        Place {
            offset: 0,
            line: 1,
            column: 1,
        }
    }

    /// The place of a byte further on in the text.
    pub fn moved_to(self, text: &[u8], offset: usize) -> Place
        requires short { length text.now ≤ 4194304 }
        requires further { self.offset ≤ offset }
        requires within { offset ≤ length text.now }
        requires stands { StandsAt text.now self.offset self.line self.column }
        ensures offset { result.offset ≡ offset }
        ensures stands { StandsAt text.now result.offset result.line result.column }
    {
        let mut line = self.line;
        let mut column = self.column;
        for i in self.offset..offset {
            if text[i] == b'\n' {
                line += 1;
                column = 1;
            } else {
                column += 1;
            }
        }
        Place {
            offset,
            line,
            column,
        }
    }
}

/// The line and the column after the last byte of a text of at most 4,194,304 bytes: where a
/// text that ends too soon is at fault.
pub fn end_place(text: &[u8]) -> (u32, u32)
    requires { length text.now ≤ 4194304 }
    ensures line { result.0 ≡ line_after text.now }
    ensures column { result.1 ≡ column_after text.now }
{
    let end = Place::start(text).moved_to(text, text.len());
    (end.line, end.column)
}
