// Bytes that are few enough to lie in the value itself.
ghost use Rattle.std.specs.Prelude.{◌≡◌, ◌+◌, ◌≤◌, ◌<◌, [], length, take, IfSome, IfNone};

use std::marker::Model;

// With their count and the tag of an enum these bytes make a field of 16 bytes.
pub const ROOM: usize = 14;

/// At most 14 bytes, seen as their list.
#[derive(Drop)]
pub struct Short {
    bytes: [u8; ROOM],
    count: u8,
}

impl Model for Short {
    ghost use Rattle.std.specs.Prelude.{List, ℕ, ◌≤◌, take};

    ghost Value = { List ℕ };

    ghost view = { λ short. take short.count short.bytes };

    ghost invariant = { λ short. short.count ≤ 14 };
}

impl Short {
    /// No bytes.
    pub fn empty() -> Short
        ensures { result ≡ [] }
    {
        Short {
            bytes: [0; ROOM],
            count: 0,
        }
    }

    /// A copy of the bytes; none where they have no room.
    pub fn of(bytes: &[u8]) -> Option<Short>
        ensures some { IfSome result (λ short. short ≡ bytes.now) }
        ensures none { IfNone result (14 < length bytes.now) }
    {
        if bytes.len() > ROOM {
            return None;
        }
        let mut short = Short::empty();
        short.set(bytes);
        Some(short)
    }

    /// Puts copies of these bytes in the place of its own.
    pub fn set(&mut self, bytes: &[u8])
        requires { length bytes.now ≤ 14 }
        ensures { self.new ≡ bytes.now }
    {
        copy_few(&mut self.bytes, bytes);
        self.count = bytes.len() as u8;
    }

    /// The bytes.
    pub fn bytes(&self) -> &[u8]
        ensures { result.now ≡ self.now }
    {
        &self.bytes[..usize::from(self.count)]
    }
}

// Copies bytes to the front, with no call where they are copied in pieces.
#[inline]
fn copy_few(into: &mut [u8; ROOM], bytes: &[u8])
    requires { length bytes.now ≤ 14 }
    ensures front { take (length bytes.now) into.new ≡ bytes.now }
    ensures length { length into.new ≡ length into.old }
{
    if bytes.len() >= 8 {
        copy_ends(8, into, bytes);
    } else if bytes.len() >= 4 {
        copy_ends(4, into, bytes);
    } else {
        copy_each(into, bytes);
    }
}

// Copies bytes to the front in two pieces of that length: the first bytes and the last ones.
#[inline(always)]
fn copy_ends(piece: usize, into: &mut [u8], bytes: &[u8])
    requires within { piece ≤ length bytes.now }
    requires twice { length bytes.now ≤ piece + piece }
    requires room { length bytes.now ≤ length into.old }
    ensures front { take (length bytes.now) into.new ≡ bytes.now }
    ensures length { length into.new ≡ length into.old }
{
    let count = bytes.len();
    let last = count - piece;
    into[..piece].copy_from_slice(&bytes[..piece]);
    into[last..count].copy_from_slice(&bytes[last..]);
}

// Copies bytes to the front one by one.
fn copy_each(into: &mut [u8], bytes: &[u8])
    requires room { length bytes.now ≤ length into.old }
    ensures front { take (length bytes.now) into.new ≡ bytes.now }
    ensures length { length into.new ≡ length into.old }
{
    for place in 0..bytes.len() {
        into[place] = bytes[place];
    }
}
