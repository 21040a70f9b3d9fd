// The keys of a column in order, each found by binary search.
ghost use Rattle.std.specs.Prelude.{◌≡◌, ◌<◌, ◌≤◌, ℕ, List, Option, None, IfOk, get_or, length};
ghost use Rattle.std.specs.Prelude.{map};
ghost use Rattle.std.specs.List.{position_from};
ghost use Rattle.std.specs.Option.{option_map};
ghost use Rattle.ports.specs.SortedKeys.{IsSortedKeys, IsListed, is_below, is_key, key_at, rank};
ghost use Rattle.ports.specs.SortedKeys.{ranked_cmp};

use super::{Memory, Name};
use std::alloc::Global;
use std::cmp::Ordering;

/// An element of a column, which has a key or has none: a row by its identification, a table by
/// its name.
pub trait Keyed {
    ghost key: { Self → Option (List ℕ) };

    /// The bytes of the key.
    fn key(&self) -> Option<&[u8]>
        ensures { option_map (λ bytes. bytes.now) result ≡ key self.now };
}

impl Keyed for Name {
    ghost use Rattle.std.specs.Prelude.{Some};

    ghost key = { λ name. Some name };

    fn key(&self) -> Option<&[u8]> {
        Some(self.bytes())
    }
}

/// The place of an element in its column, with the rank of its key.
#[derive(Clone, Copy)]
pub struct Ranked {
    pub rank: u64,
    pub place: usize,
}

/// The keys of a column in order: by their ranks, those of one rank by their bytes, and equal keys
/// by their places.
///
/// A rank is the length and the first seven bytes after what all keys have in common. It spares a
/// look at the bytes and is no more than a hint: the order is total whatever the ranks are, so that
/// nobody who writes the keys can make the sort or the search slow.
#[derive(Drop)]
pub struct SortedKeys {
    pub skip: usize,
    pub ranked: Vec<Ranked>,
}

// The byte at a place, 0 after the end.
fn byte_at(bytes: &[u8], place: usize) -> u8
    ensures { result ≡ get_or bytes.now place 0 }
{
    match bytes.get(place) {
        Some(byte) => *byte,
        None => 0,
    }
}

fn rank(skip: usize, key: &[u8]) -> u64
    ensures { result ≡ rank skip key.now }
{
    let rest = if skip < key.len() { &key[skip..] } else { &[] };
    u64::from_be_bytes([
        key.len().min(255) as u8,
        byte_at(rest, 0),
        byte_at(rest, 1),
        byte_at(rest, 2),
        byte_at(rest, 3),
        byte_at(rest, 4),
        byte_at(rest, 5),
        byte_at(rest, 6),
    ])
}

// How many bytes at their front two keys have in common, at most so many.
fn shared(a: &[u8], b: &[u8], most: usize) -> usize {
    for place in 0..most {
        if byte_at(a, place) != byte_at(b, place) {
            return place;
        }
    }
    most
}

// How many bytes at their front all keys have in common.
fn shared_by_all<K: Keyed>(keys: &[K]) -> usize {
    let mut front: &[u8] = &[];
    let mut count = usize::MAX;
    for key in keys {
        if let Some(bytes) = key.key() {
            if count == usize::MAX {
                front = bytes;
            }
            count = shared(front, bytes, count.min(bytes.len()));
        }
    }
    count
}

// The key at a place, no bytes where there is none.
fn key_at<'a, K: Keyed>(keys: &'a [K], place: usize) -> &'a [u8]
    ensures { result.now ≡ key_at (map K.key keys.now) place }
{
    match keys.get(place) {
        Some(element) => element.key().unwrap_or(&[]),
        None => &[],
    }
}

fn order<K: Keyed>(keys: &[K], a: &Ranked, b: &Ranked) -> Ordering
    ensures { result ≡ ranked_cmp (map K.key keys.now) a.now b.now }
{
    match a.rank.cmp(&b.rank) {
        Ordering::Equal => key_at(keys, a.place)
            .cmp(key_at(keys, b.place))
            .then(a.place.cmp(&b.place)),
        other => other,
    }
}

fn is_below<K: Keyed>(keys: &[K], ranked: &Ranked, rank: u64, key: &[u8]) -> bool
    ensures { result ≡ is_below (map K.key keys.now) rank key.now ranked.now }
{
    match ranked.rank.cmp(&rank) {
        Ordering::Equal => key_at(keys, ranked.place).cmp(key).is_lt(),
        other => other.is_lt(),
    }
}

// The places of all keys with their ranks, as they stand in the column.
fn listed<K: Keyed>(alloc: Global, skip: usize, keys: &[K]) -> Result<Vec<Ranked>, Memory>
    ensures { IfOk result (λ ranked. IsListed (map K.key keys.now) skip ranked.items) }
{
    let mut ranked = Vec::with_capacity(alloc, keys.len())?;
    for (place, element) in keys.iter().enumerate() {
        if let Some(key) = element.key() {
            ranked.push(Ranked {
                rank: rank(skip, key),
                place,
            })?;
        }
    }
    Ok(ranked)
}

impl SortedKeys {
    /// Sorts the keys of a column. It takes n log n comparisons for every input, and one walk where
    /// they stand in order; 16 bytes for each. The only error is out of memory.
    pub fn new<K: Keyed>(alloc: Global, keys: &[K]) -> Result<SortedKeys, Memory>
        ensures { IfOk result (λ sorted. IsSortedKeys (map K.key keys.now) sorted) }
    {
        let skip = shared_by_all(keys);
        let mut ranked = listed(alloc, skip, keys)?;
        ranked.sort_unstable_by(|a, b| order(keys, a, b));
        Ok(SortedKeys { skip, ranked })
    }

    /// The place of the first element of the column that has the key, by binary search.
    pub fn first<K: Keyed>(&self, keys: &[K], key: &[u8]) -> Option<usize>
        requires { IsSortedKeys (map K.key keys.now) self.now }
        ensures { result ≡ position_from (is_key key.now) 0 (map K.key keys.now) }
    {
        let rank = rank(self.skip, key);
        let at = self
            .ranked
            .partition_point(move |ranked| is_below(keys, ranked, rank, key));
        let place = self.ranked.get(at)?.place;
        if key_at(keys, place) == key {
            Some(place)
        } else {
            None
        }
    }
}
