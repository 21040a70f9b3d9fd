// Numbers with a point, written from whole numbers at a scale.
ghost use Rattle.std.specs.Prelude.{◌≡◌, ◌+◌, ◌≤◌, ◌<◌, ◌^◌, ◌++◌, ℕ, ℤ, List, Ok, length, take};
ghost use Rattle.std.specs.Prelude.{drop};
ghost use Rattle.std.specs.Prelude.{decimal, unsigned_abs};
ghost use Rattle.decimals.specs.Numerals.{Numeral, Spells, sign_bytes};
ghost use Rattle.decimals.specs.Scaled.{magnitude_of, scaled_of, with_sign};
ghost use Rattle.decimals.specs.Written.{written_sign, padded, numeral_of, spelling_of, IsInForm};

use itoa::Buffer;

const ZEROS: [u8; 9] = [b'0'; 9];

/// Writes a value in units of the last of `scale` decimals to the front of `into`, with exactly
/// these decimals, and answers how many bytes it has. What stands after them stays.
pub fn write_scaled(value: i64, scale: u8, into: &mut [u8; 24]) -> usize
    requires digits { unsigned_abs value < 10 ^ 18 }
    requires scale { scale ≤ 9 }
    ensures written { take result into.new ≡ spelling_of value scale }
    ensures length { result ≡ length (spelling_of value scale) }
    ensures rest { drop result into.new ≡ drop result into.old }
{
    let unit = 10u64.pow(u32::from(scale));
    let magnitude = value.unsigned_abs();
    let signed = put(into, 0, sign_text(value));
    let mut digits = Buffer::new();
    let whole = put(into, signed, digits.format(magnitude / unit).as_bytes());
    if scale == 0 {
        return whole;
    }
    let point = put(into, whole, b".");
    put_padded(into, point, usize::from(scale), magnitude % unit)
}

// The sign that is written before a value.
fn sign_text(value: i64) -> &'static [u8]
    ensures { result.now ≡ sign_bytes (written_sign value) }
{
    if value < 0 { b"-" } else { b"" }
}

// Writes bytes from a place on, and answers the place after them.
fn put(into: &mut [u8], at: usize, bytes: &[u8]) -> usize
    requires { at + length bytes.now ≤ length into.old }
    ensures end { result ≡ at + length bytes.now }
    ensures front { take result into.new ≡ take at into.old ++ bytes.now }
    ensures rest { drop result into.new ≡ drop result into.old }
    ensures len { length into.new ≡ length into.old }
{
    let end = at + bytes.len();
    into[at..end].copy_from_slice(bytes);
    end
}

// Writes a number in so many digits from a place on, and answers the place after them.
fn put_padded(into: &mut [u8], at: usize, digits: usize, number: u64) -> usize
    requires room { at + digits ≤ length into.old }
    requires fits { (length (decimal number) ≤ digits) × (digits ≤ 9) }
    ensures end { result ≡ at + digits }
    ensures front { take result into.new ≡ take at into.old ++ padded digits number }
    ensures rest { drop result into.new ≡ drop result into.old }
{
    let mut buffer = Buffer::new();
    let text = buffer.format(number).as_bytes();
    let zeros = put(into, at, &ZEROS[..digits - text.len()]);
    put(into, zeros, text)
}

/// Reading what was written at a scale gives the value back.
pub fn written_reads_back()
    ensures { (value : ℤ) (scale : ℕ) → unsigned_abs value < 10 ^ 18
        → scaled_of (spelling_of value scale) scale ≡ Ok value }
{}

/// What is written is in the form of `IsInForm`, and no other text in it has the value.
pub fn one_spelling()
    ensures form { (value : ℤ) (scale : ℕ) → unsigned_abs value < 10 ^ 18
        → IsInForm scale (numeral_of value scale) }
    ensures one { (bytes : List ℕ) (n : Numeral) (scale : ℕ) → Spells bytes n
        → magnitude_of scale n < 10 ^ 18 → IsInForm scale n
        → bytes ≡ spelling_of (with_sign n.sign (magnitude_of scale n)) scale }
{}

/// What is written has at most 20 bytes.
pub fn written_is_short()
    ensures { (value : ℤ) (scale : ℕ) → unsigned_abs value < 10 ^ 18 → scale ≤ 9
        → length (spelling_of value scale) ≤ 20 }
{}
