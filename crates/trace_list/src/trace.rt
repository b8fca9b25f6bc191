ghost use Rattle.std.specs.Prelude.{◌≡◌, ◌∷◌, ◌++◌, ◌+◌, ◌<◌, ◌≤◌, ◌↔◌, [], length, true, OnOk, IfSome, IsSome};
ghost use Rattle.trace_list.specs.declared.trace.TheConstants.{MOST};

use std::alloc::{AllocError, Global};
use std::marker::Model;
use std::snapshot::Snapshot;

/// As many as a vector has at most whose values have bytes. A snapshot has none, so nothing else bounds how many are noted.
pub const MOST: usize = 0x7fff_ffff_ffff_ffff;

/// What was noted, in order. A snapshot has no bytes, so without values it takes no memory.
#[derive(Drop)]
pub struct Trace<T> {
    noted: Vec<Snapshot<T>>,
    /// What was noted where values are kept, and else nothing. Beside a mark and not an `Option`, since a type that many others
    /// hold is best one of no cases.
    values: Vec<T>,
    is_kept: bool,
    /// For so many more there is room.
    spare: usize,
}

impl<T> Model for Trace<T> {
    ghost use Rattle.std.specs.Prelude.{◌≡◌, ◌+◌, ◌≤◌, true, map, vec_len, vec_capacity};
    ghost use Rattle.trace_list.specs.Noted.{TraceView, held_of};
    ghost use Rattle.trace_list.specs.declared.trace.TheConstants.{MOST};

    ghost Value = { TraceView T };

    ghost view = { λ t. record {
      items = map (λ s. s.value) t.noted.items;
      spare = t.spare;
      is_kept = t.is_kept;
    } };

    ghost invariant = { λ t. (t.values.items ≡ held_of t.is_kept (map (λ s. s.value) t.noted.items))
        × (vec_len t.noted + t.spare ≤ vec_capacity t.noted)
        × (vec_len t.noted + t.spare ≤ MOST)
        × (t.is_kept ≡ true → vec_len t.values + t.spare ≤ vec_capacity t.values) };
}

impl<T> Trace<T> {
    /// Nothing was noted. What is noted later is kept as values, or isn't.
    pub fn new(alloc: Global, is_kept: bool) -> Trace<T>
        ensures items { result.items ≡ [] }
        ensures is_kept { result.is_kept ≡ is_kept }
    {
        Trace {
            noted: Vec::new(alloc),
            values: Vec::new(alloc),
            is_kept,
            spare: 0,
        }
    }

    /// How many there are.
    pub fn len(&self) -> usize
        ensures items { result ≡ length self.now.items }
        ensures most { result ≤ MOST }
    {
        self.noted.len()
    }

    /// Makes room for so many more. There is none past MOST.
    pub fn reserve(&mut self, additional: usize) -> Result<(), AllocError>
        ensures items { self.new.items ≡ self.old.items }
        ensures ok { OnOk result (additional ≤ self.new.spare) }
        ensures spare { self.old.spare ≤ self.new.spare }
        ensures is_kept { self.new.is_kept ≡ self.old.is_kept }
    {
        if additional <= self.spare {
            return Ok(());
        }
        if additional > MOST - self.noted.len() {
            return Err(AllocError);
        }
        self.noted.reserve(additional)?;
        if self.is_kept {
            self.values.reserve(additional)?;
        }
        self.spare = additional;
        Ok(())
    }

    /// The values of all that was noted, where they are kept.
    pub fn values(&self) -> Option<&[T]>
        ensures values { IfSome result (λ values. values.now ≡ self.now.items) }
        ensures kept { IsSome result ↔ (self.now.is_kept ≡ true) }
    {
        if self.is_kept {
            Some(self.values.as_slice())
        } else {
            None
        }
    }
}

impl<T: Drop> Trace<T> {
    /// Notes one more.
    pub fn note(&mut self, value: T)
        requires { 0 < self.old.spare }
        ensures items { self.new.items ≡ self.old.items ++ value ∷ [] }
        ensures spare { self.old.spare ≡ self.new.spare + 1 }
        ensures is_kept { self.new.is_kept ≡ self.old.is_kept }
    {
        self.noted.push_reserved(Snapshot::of(&value));
        self.spare -= 1;
        if self.is_kept {
            self.values.push_reserved(value);
        }
    }
}
