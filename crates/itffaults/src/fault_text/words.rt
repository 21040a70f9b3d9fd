// Words and numbers, added to a text that is held in memory.
ghost use Rattle.std.specs.Prelude.{◌≡◌, ◌≤◌, ◌++◌, codes, decimal, OnOk};
ghost use Rattle.decimals.specs.Numerals.{point_bytes, sign_bytes};
ghost use Rattle.decimals.specs.Written.{padded, spelling_of, written_point, written_sign};
ghost use Rattle.itffaults.specs.FaultText.Text.{corner_text, pair_text, place_text, side_text};

use file_pages::HeldText;
use itoa::Buffer;
use plane::Point;
use ports::Memory;

const ZEROS: [u8; 9] = [b'0'; 9];

/// Adds a number.
pub fn add_number(text: &mut HeldText, number: u64) -> Result<(), Memory>
    ensures { OnOk result (text.new ≡ text.old ++ decimal number) }
{
    let mut buffer = Buffer::new();
    text.add(buffer.format(number).as_bytes())
}

/// Adds a word, with a blank before it.
pub fn add_next(text: &mut HeldText, word: &[u8]) -> Result<(), Memory>
    ensures { OnOk result (text.new ≡ text.old ++ (codes " " ++ word.now)) }
{
    text.add(b" ")?;
    text.add(word)
}

/// Adds a number, with a blank before it.
pub fn add_next_number(text: &mut HeldText, number: u64) -> Result<(), Memory>
    ensures { OnOk result (text.new ≡ text.old ++ (codes " " ++ decimal number)) }
{
    text.add(b" ")?;
    add_number(text, number)
}

/// Adds words and a line of the transfer.
pub fn add_numbered(text: &mut HeldText, words: &[u8], line: u32) -> Result<(), Memory>
    ensures { OnOk result (text.new ≡ text.old ++ (words.now ++ decimal line)) }
{
    text.add(words)?;
    add_number(text, u64::from(line))
}

/// Adds words and two lines of the transfer.
pub fn add_pair(text: &mut HeldText, words: &[u8], first: u32, second: u32) -> Result<(), Memory>
    ensures { OnOk result (text.new ≡ text.old ++ (words.now ++ pair_text first second)) }
{
    add_numbered(text, words, first)?;
    add_next_number(text, u64::from(second))
}

/// Adds left or right, with a blank before it.
pub fn add_side(text: &mut HeldText, left: bool) -> Result<(), Memory>
    ensures { OnOk result (text.new ≡ text.old ++ side_text left) }
{
    text.add(if left { b" LEFT" } else { b" RIGHT" })
}

// The sign that is written before a value.
fn sign_text(value: i64) -> &'static [u8]
    ensures { result.now ≡ sign_bytes (written_sign value) }
{
    if value < 0 { b"-" } else { b"" }
}

// Adds a number in so many digits, with zeros in front.
fn add_padded(text: &mut HeldText, digits: usize, number: u64) -> Result<(), Memory>
    requires { digits ≤ 9 }
    ensures { OnOk result (text.new ≡ text.old ++ padded digits number) }
{
    let mut buffer = Buffer::new();
    let word = buffer.format(number).as_bytes();
    text.add(&ZEROS[..digits.saturating_sub(word.len())])?;
    text.add(word)
}

// Adds a point and so many decimals; at scale 0 nothing.
fn add_decimals(text: &mut HeldText, scale: u8, decimals: u64) -> Result<(), Memory>
    requires { scale ≤ 9 }
    ensures { OnOk result (text.new ≡ text.old ++ point_bytes (written_point scale decimals)) }
{
    if scale == 0 {
        return Ok(());
    }
    text.add(b".")?;
    add_padded(text, usize::from(scale), decimals)
}

// Adds a value in units of the last of so many decimals.
fn add_scaled(text: &mut HeldText, value: i64, scale: u8) -> Result<(), Memory>
    requires { scale ≤ 9 }
    ensures { OnOk result (text.new ≡ text.old ++ spelling_of value scale) }
{
    let unit = 10u64.pow(u32::from(scale));
    let magnitude = value.unsigned_abs();
    text.add(sign_text(value))?;
    add_number(text, magnitude / unit)?;
    add_decimals(text, scale, magnitude % unit)
}

/// Adds the two numbers of a place in so many decimals, with a blank between them.
pub fn add_corner(text: &mut HeldText, scale: u8, place: Point) -> Result<(), Memory>
    requires { scale ≤ 9 }
    ensures { OnOk result (text.new ≡ text.old ++ corner_text scale place) }
{
    add_scaled(text, place.x, scale)?;
    text.add(b" ")?;
    add_scaled(text, place.y, scale)
}

/// Adds a place in so many decimals, with a blank before each of its numbers.
pub fn add_place(text: &mut HeldText, scale: u8, place: Point) -> Result<(), Memory>
    requires { scale ≤ 9 }
    ensures { OnOk result (text.new ≡ text.old ++ place_text scale place) }
{
    text.add(b" ")?;
    add_corner(text, scale, place)
}
