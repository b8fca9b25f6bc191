ghost use Rattle.std.specs.Prelude.{Some, ◌≡◌, ◌<◌, ◌≤◌, ◌↔◌, [], length, take, drop, min};
ghost use Rattle.std.specs.Prelude.{slice_index_or, true};
ghost use Rattle.std.specs.List.{concat};
ghost use Rattle.io_edge.specs.Ends.{onto, IsUsedUp};
ghost use Rattle.cfg_base.specs.Counts.{Rose};
ghost use Rattle.io_edge.specs.Taken.{taken, TakesAtMost};
ghost use Rattle.io_edge.specs.Calls.{is_next_failing, no_calls, with_call};
ghost use Rattle.io_edge.specs.Places.{left_from, IsPlaceOf, HasByteAt};

use crate::calls::Calls;
use crate::ends::{Got, Source};
use cfg_base::Bytes;
use std::marker::Model;

/// A place in a list of pieces: a piece, and how many of its bytes stand before the place.
#[derive(Clone, Copy, Debug)]
struct Place {
    piece: usize,
    at: usize,
}

/// A source in memory. One read takes bytes of one piece alone.
#[derive(Debug, Drop)]
pub struct ListSource {
    pieces: Vec<Bytes>,
    place: Place,
    calls: Calls,
}

impl Model for ListSource {
    ghost use Rattle.io_edge.specs.Forms.{ListSourceView};
    ghost use Rattle.io_edge.specs.Places.{left_from, IsPlaceOf};

    ghost Value = { ListSourceView };

    ghost view = { λ s. record { left = left_from s.pieces.items s.place.piece s.place.at; calls = s.calls } };

    ghost invariant = { λ s. IsPlaceOf s.pieces.items s.place.piece s.place.at };
}

impl ListSource {
    /// A source of these pieces, of whose reads those of these numbers, counted from 1, fail.
    pub fn new(pieces: Vec<Bytes>, failing: Vec<u64>) -> ListSource
        ensures left { result.left ≡ concat pieces.items }
        ensures calls { result.calls ≡ no_calls failing.items }
    {
        ListSource {
            pieces,
            place: Place { piece: 0, at: 0 },
            calls: Calls::new(failing),
        }
    }
}

/// The first place from this one on at which a byte stands, or the end.
fn first_byte(pieces: &[Bytes], from: Place) -> Place
    requires { IsPlaceOf pieces.now from.piece from.at }
    ensures same { left_from pieces.now result.piece result.at ≡ left_from pieces.now from.piece from.at }
    ensures place { IsPlaceOf pieces.now result.piece result.at }
    ensures byte { result.piece < length pieces.now → HasByteAt pieces.now result.piece result.at }
{
    let mut piece = from.piece;
    let mut at = from.at;
    'pieces: while piece < pieces.len() {
        if at < pieces[piece].as_slice().len() {
            return Place { piece, at };
        }
        piece += 1;
        at = 0;
    }
    Place { piece, at }
}

/// Copies the first bytes, as many as there are and fit, and reports how many.
fn copy_front(from: &[u8], into: &mut [u8]) -> usize
    ensures count { result ≡ min (length from.now) (length into.old) }
    ensures bytes { take result into.new ≡ take result from.now }
{
    let count = from.len().min(into.len());
    let (source, _) = from.split_at(count);
    let (target, _) = into.split_at_mut(count);
    target.copy_from_slice(source);
    count
}

impl Source for ListSource {
    ghost view = { λ s. record { left = Some s.left; faults = s.calls.faults } };

    fn read(&mut self, into: &mut [u8]) -> Got
        requires { 0 < length into.old }
        ensures count { TakesAtMost result (length into.old) }
        ensures bytes { Some self.old.left ≡ onto (taken result into.new) (Some self.new.left) }
        ensures end { result ≡ Got.End → IsUsedUp (Some self.new.left) }
        ensures later { self.old.calls.faults ≤ self.new.calls.faults }
        ensures failed { result ≡ Got.Failed → Rose self.old.calls.faults self.new.calls.faults }
        // Only the calls of the stated numbers fail.
        ensures fails { result ≡ Got.Failed ↔ (is_next_failing self.old.calls ≡ true) }
        ensures calls { self.new.calls ≡ with_call self.old.calls }
    {
        if self.calls.fails() {
            return Got::Failed;
        }
        self.place = first_byte(&self.pieces, self.place);
        match self.pieces.get(self.place.piece) {
            Some(piece) => {
                let (_, rest) = piece.as_slice().split_at(self.place.at);
                let count = copy_front(rest, into);
                self.place.at += count;
                Got::Bytes(count)
            }
            None => Got::End,
        }
    }
}
