//! One turn, step by step.

ghost use Rattle.std.specs.Prelude.{◌≡◌, ℕ, ◌+◌, ◌%◌, ◌^◌, [], ◌∷◌, IfSome, Some, None};
ghost use Rattle.turn_lock.specs.declared.view.Stage.TheVariants.{Idle, Waits, Serves};
ghost use Rattle.turn_lock.specs.Views.{staged, entering, pass_view};
ghost use Rattle.turn_lock.specs.Steps.{IsSameSeat, IsTurn, WaitsFor, Grown, IsWhole};
ghost use Rattle.turn_lock.specs.Passes.{TookTurn};

use crate::bell::OwedRing;
use crate::book::{Book, Deed};
use crate::lock::Turns;
use crate::pass::Pass;
use crate::rule::{Draw, Enter, Look, PassOn};
use crate::view::View;
use atomic_table::{Badge, Seat};
use std::mem::replace;
use std::sync::Wait;

/// A pass in the table.
type Place<T> = Seat<Option<T>, View<<T as Book>::Entry, <T as Book>::Fixed>>;

/// The words of the table, and its slot.
const NEXT: usize = 0;

const SERVING: usize = 1;

const COUNT: usize = 2;

const VALUE: usize = 0;

impl<T: Book> Turns<T> {
    /// Takes the next ticket.
    fn draw(&self, seat: &mut Place<T>) -> u64
        requires here { seat.old.table_id ≡ self.now }
        requires idle { seat.old.me.0.stage ≡ Idle }
        ensures same { IsSameSeat seat.old seat.new }
        ensures drew { (t : ℕ) × (seat.new.me ≡ (staged seat.old.me.0 (Waits t), seat.old.me.1))
            × (result ≡ t % 2 ^ 64) }
    {
        self.table.shared.fetch_add::<Draw>(seat, NEXT, 1)
    }

    /// Waits until the ticket is served. The bell is read before each look, since a ring after the look must let no
    /// sleep begin.
    fn wait<R: Wait>(&self, rt: &R, seat: &mut Place<T>, ticket: u64)
        requires here { seat.old.table_id ≡ self.now }
        requires waits { WaitsFor ticket seat.old.me }
        ensures same { IsSameSeat seat.old seat.new }
        ensures turn { (t : ℕ) × IsTurn T.history T.caller_of T.fixed t seat.old.me seat.new.me }
    {
        let bell = self.bells.of(ticket);
        let mut looks: u32 = 0;
        for _ in rt.forever() {
            let heard = bell.rings();
            let served = self.table.shared.load::<Look<T>>(seat, SERVING);
            if served == ticket {
                return;
            }
            bell.rest(rt, looks, heard, ticket.wrapping_sub(served));
            looks = looks.saturating_add(1);
        }
        unreachable!()
    }

    /// Takes the value out of the slot.
    fn take(&self, seat: &mut Place<T>) -> T
        requires here { seat.old.table_id ≡ self.now }
        requires out { (value : T) × (seat.old.me.1 ≡ (0, Some value) ∷ []) }
        ensures same { IsSameSeat seat.old seat.new }
        ensures value { seat.old.me.1 ≡ (0, Some result) ∷ [] }
        ensures left { seat.new.me ≡ (seat.old.me.0, (0, None) ∷ []) }
    {
        self.table.shared.exchange(seat, VALUE, None).unwrap()
    }

    /// Puts the value into the slot.
    fn put(&self, seat: &mut Place<T>, value: T)
        requires here { seat.old.table_id ≡ self.now }
        requires out { seat.old.me.1 ≡ (0, None) ∷ [] }
        ensures same { IsSameSeat seat.old seat.new }
        ensures left { seat.new.me ≡ (seat.old.me.0, (0, Some value) ∷ []) }
    {
        let nothing = self.table.shared.exchange(seat, VALUE, Some(value));
        let None = nothing else { unreachable!() };
    }

    /// Makes the deed's entries, so many, part of the entered history.
    fn enter(&self, seat: &mut Place<T>, added: u64)
        requires here { seat.old.table_id ≡ self.now }
        requires grown { Grown T.history T.caller_of added seat.old.me }
        ensures same { IsSameSeat seat.old seat.new }
        ensures entered { (value : T) → seat.old.me.1 ≡ (0, Some value) ∷ []
            → seat.new.me ≡ (entering seat.old.me.0 (T.history value), seat.old.me.1) }
    {
        self.table.shared.fetch_add::<Enter<T>>(seat, COUNT, added);
    }

    /// Sends the value home, and serves the next ticket, whose caller is owed a ring.
    fn pass_on(&self, seat: &mut Place<T>) -> OwedRing
        requires here { seat.old.table_id ≡ self.now }
        requires whole { IsWhole T.history T.fixed seat.old.me }
        ensures same { IsSameSeat seat.old seat.new }
        ensures left { seat.new.me ≡ (staged seat.old.me.0 Idle, []) }
        ensures next { (t : ℕ) → seat.old.me.0.stage ≡ Serves t → result.ticket ≡ (t + 1) % 2 ^ 64 }
    {
        let served = self.table.shared.fetch_add::<PassOn>(seat, SERVING, 1);
        OwedRing {
            ticket: served.wrapping_add(1),
        }
    }

    /// The turn of a seat.
    fn turn_at<A: Deed<T>, R: Wait>(
        &self,
        rt: &R,
        seat: &mut Place<T>,
        caller: u32,
        deed: A,
    ) -> A::Answer
        requires here { seat.old.table_id ≡ self.now }
        requires idle { (seat.old.me.0.stage ≡ Idle) × (seat.old.me.1 ≡ []) }
        requires caller { caller ≡ seat.old.me.0.caller }
        requires may { IfSome seat.old.me.0.fixed (λ fixed. A.may deed caller fixed) }
        ensures same { IsSameSeat seat.old seat.new }
        ensures idle { (seat.new.me.0.stage ≡ Idle) × (seat.new.me.1 ≡ []) }
        ensures took { TookTurn T.caller_of (λ fixed before after. A.says deed caller fixed before after result)
            (pass_view seat.old.table_id seat.old.me.0) (pass_view seat.new.table_id seat.new.me.0) }
    {
        let ticket = self.draw(seat);
        self.wait(rt, seat, ticket);
        let mut value = self.take(seat);
        let before = value.count();
        let answer = deed.act(rt, caller, &mut value);
        let after = value.count();
        self.put(seat, value);
        self.enter(seat, after - before);
        let owed = self.pass_on(seat);
        self.bells.ring(owed);
        answer
    }

    /// Waits for the caller's turn, does the deed, and lets the next caller have its turn.
    pub fn turn<A: Deed<T>, R: Wait>(
        &self,
        rt: &R,
        pass: &mut Pass<T::Entry, T::Fixed>,
        deed: A,
    ) -> A::Answer
        requires here { pass.old.lock ≡ self.now }
        requires may { IfSome pass.old.fixed (λ fixed. A.may deed pass.old.caller fixed) }
        ensures { TookTurn T.caller_of (λ fixed before after. A.says deed pass.old.caller fixed before after result)
            pass.old pass.new }
    {
        let mut seat = replace(&mut pass.badge, Badge::blank()).into_seat();
        let answer = self.turn_at(rt, &mut seat, pass.caller, deed);
        pass.badge = seat.into_badge();
        answer
    }
}
