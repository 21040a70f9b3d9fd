// Some values in one piece of memory, of which a list is made.
ghost use Rattle.std.specs.Prelude.{◌≡◌, ◌+◌, ◌-◌, ◌<◌, ◌≤◌, ◌++◌, length, take, drop, IfOk, OnOk};
ghost use Rattle.std.specs.Prelude.{vec_capacity};

use ports::Memory;
use std::alloc::Global;
use std::marker::Model;

/// One value or more.
#[derive(Drop)]
pub struct Chunk<T> {
    values: Vec<T>,
}

impl<T> Model for Chunk<T> {
    ghost use Rattle.std.specs.Prelude.{List, ◌<◌, length};

    ghost Value = { List T };

    ghost view = { λ b. b.values.items };

    ghost invariant = { λ b. 0 < length b.values.items };
}

impl<T: Copy> Chunk<T> {
    pub fn new(alloc: Global, values: &[T]) -> Result<Chunk<T>, Memory>
        requires { 0 < length values.now }
        ensures { IfOk result (λ chunk. chunk ≡ values.now) }
    {
        let mut own = Vec::with_capacity(alloc, values.len())?;
        insert_values(&mut own, 0, values);
        Ok(Chunk { values: own })
    }

    pub fn values(&self) -> &[T]
        ensures values { result.now ≡ self.now }
        ensures some { 0 < length self.now }
    {
        &self.values
    }

    pub fn len(&self) -> usize
        ensures size { result ≡ length self.now }
        ensures some { 0 < result }
    {
        self.values.len()
    }

    /// Puts values in the place of `count` others, from `from` on, such that some are left.
    pub fn replace(&mut self, from: usize, count: usize, with: &[T]) -> Result<(), Memory>
        requires within { from + count ≤ length self.old }
        requires left { 0 < length self.old - count + length with.now }
        ensures { OnOk result (self.new ≡ take from self.old
            ++ (with.now ++ drop (from + count) self.old)) }
    {
        let common = count.min(with.len());
        if common < with.len() {
            self.values.reserve(with.len() - common)?;
        }
        change(&mut self.values, from, count, with);
        Ok(())
    }

    /// Takes out `count` values from `from` on, such that some are left.
    pub fn remove(&mut self, from: usize, count: usize)
        requires within { from + count ≤ length self.old }
        requires left { count < length self.old }
        ensures { self.new ≡ take from self.old ++ drop (from + count) self.old }
    {
        remove_values(&mut self.values, from, count);
    }

    /// Takes the second half out.
    pub fn halve(&mut self) -> Result<Chunk<T>, Memory>
        requires { 1 < length self.old }
        ensures { IfOk result (λ tail. self.new ++ tail ≡ self.old) }
    {
        let values = self.values.split_off(self.values.len() / 2)?;
        Ok(Chunk { values })
    }
}

// Puts values in the place of `count` others, from `from` on. There is room for them. Where as
// many come as go, nothing else is moved; else each value after them is moved once or twice.
fn change<T: Copy>(values: &mut Vec<T>, from: usize, count: usize, with: &[T])
    requires within { from + count ≤ length values.old.items }
    requires room { length values.old.items + length with.now ≤ vec_capacity values.old + count }
    ensures { values.new.items ≡ take from values.old.items
        ++ (with.now ++ drop (from + count) values.old.items) }
{
    let common = count.min(with.len());
    write_over(values, from, &with[..common]);
    if common < with.len() {
        insert_values(values, from + common, &with[common..]);
    } else {
        remove_values(values, from + common, count - common);
    }
}
// Writes values over as many others, from `at` on.
fn write_over<T: Copy>(values: &mut Vec<T>, at: usize, with: &[T])
    requires { at + length with.now ≤ length values.old.items }
    ensures items { values.new.items
        ≡ take at values.old.items ++ (with.now ++ drop (at + length with.now) values.old.items) }
    ensures capacity { vec_capacity values.new ≡ vec_capacity values.old }
{
    values[at..at + with.len()].copy_from_slice(with);
}

/// Puts values in before the value at `at`. There is room for them.
pub fn insert_values<T: Copy>(values: &mut Vec<T>, at: usize, more: &[T])
    requires place { at ≤ length values.old.items }
    requires room { length values.old.items + length more.now ≤ vec_capacity values.old }
    ensures items { values.new.items
        ≡ take at values.old.items ++ (more.now ++ drop at values.old.items) }
    ensures capacity { vec_capacity values.new ≡ vec_capacity values.old }
{
    if let [value] = more {
        let _ = values.insert(at, *value);
        return;
    }
    for value in more {
        values.push_reserved(*value);
    }
    values[at..].rotate_right(more.len());
}

// Takes out `count` values from `at` on.
fn remove_values<T: Copy>(values: &mut Vec<T>, at: usize, count: usize)
    requires { at + count ≤ length values.old.items }
    ensures items { values.new.items
        ≡ take at values.old.items ++ drop (at + count) values.old.items }
    ensures capacity { vec_capacity values.new ≡ vec_capacity values.old }
{
    if count == 1 {
        values.remove(at);
        return;
    }
    values[at..].rotate_left(count);
    values.truncate(values.len() - count);
}
