//! The desk, and its calls.
ghost use Rattle.std.specs.Prelude.{◌≡◌, ◌+◌, ◌-◌, ◌%◌, ◌<◌, ◌≤◌, ◌∷◌, [], max, IsOk, IfOk, IfErr, Some, None, replicate};
ghost use Rattle.cat_model.specs.Drafts.{nothing_open, open_of, StaysOpen};
ghost use Rattle.cat_model.specs.Mark.{Grows};
ghost use Rattle.cat_model.specs.Turns.{Acts, place_after, snapshot};
ghost use Rattle.cat_desk.specs.Sight.{Waiting, Called};
ghost use Rattle.cat_desk.specs.Log.{BeginsWith, Follows, Since, longer};
ghost use Rattle.cat_desk.specs.Marks.{IsGiven, Linked, later_mark, later_open};
ghost use Rattle.cat_desk.specs.Rule.{at_stage, finding, Found};
ghost use Rattle.cat_desk.specs.Pass.{CarriesOn, IsFree, IsTurn, Keeps, seen, known, number_of, spare_of, stands_for, mark_of, turn_of, left_by, all_left_by, Remembers, found, held_for, found_turn};

use crate::pass::{Held, Pass};
use crate::plays::{
    Apart, Bell, Call, Compare, Draw, Give, Look, Meet, Serve, Take, Together, Turns,
};
use crate::view::View;
use crate::words::{COUNT, SERVING, TICKET, bell_of, words_of};
use atomic_table::{Badge, Seat, Table};
use cat_codes::fault::NoMemory;
use cat_model::logged::Logged;
use std::alloc::Global;
use std::marker::Model;
use std::mem;
use std::sync::Wait;

/// It holds a value, which callers take in turns, in the order of their tickets. It must be spent:
/// closed or given up.
pub struct Desk<V: Logged> {
    table: Table<Option<V>, View, V, Turns, Global>,
}

impl<V: Logged> Model for Desk<V> {
    ghost use Rattle.std.specs.Prelude.{◌≡◌};
    ghost use Rattle.cat_desk.specs.Pass.{DeskId};

    ghost Value = { DeskId };

    ghost view = { λ d. record {
      table = d.table.shared.table_id;
      opened = V.opened d.table.shared.key;
      begun = V.log d.table.shared.key;
      marked = V.mark d.table.shared.key;
    } };

    ghost invariant = { λ d. (d.table.shared.table_id.words ≡ 67)
        × (d.table.shared.table_id.slots ≡ 1) };
}

impl<V: Logged> Desk<V> {
    /// A desk with the value at home, and the first pass, which has seen its log.
    pub fn new(alloc: Global, value: V) -> Result<(Desk<V>, Pass), (V, NoMemory)>
        requires legal { V.legal (V.opened value) (V.log value) }
        requires closed { V.left_open value ≡ nothing_open }
        ensures desk { IfOk result
            (λ t. (t.0.opened ≡ V.opened value) × (t.0.begun ≡ V.log value) × IsFree t.0 t.1) }
        ensures marked { IfOk result (λ t. t.0.marked ≡ V.mark value) }
        ensures pass { IfOk result
            (λ t. (seen t.1 ≡ V.log value)
            × (known t.1 ≡ place_after (V.opened value) (V.log value))
            × (mark_of t.1 ≡ V.mark value)
            × (left_by t.1 ≡ nothing_open)
            × (all_left_by t.1 ≡ V.left_open value)) }
        ensures number { IfOk result
            (λ t. (number_of t.1 ≡ 1) × (spare_of t.1 ≡ 4294967294) × (stands_for t.1 ≡ 1)) }
        ensures refused { IfErr result (λ e. e.0 ≡ value) }
    {
        let count = value.count() as u64;
        let made = Table::<Option<V>, View, V, Turns, Global>::vacant(
            alloc,
            &words_of(count),
            1,
            &value,
        );
        let Ok((table, mut seat)) = made else {
            return Err((value, NoMemory));
        };
        let desk = Desk { table };
        desk.table.shared.load::<Take>(&mut seat, COUNT);
        let held = Held {
            value,
            seat,
            ticket: 0,
        };
        let mut pass = Pass {
            number: 1,
            spare: 4294967294,
            badge: Badge::blank(),
        };
        desk.leave(held, &mut pass);
        Ok((desk, pass))
    }

    /// Waits for the caller's turn, and lends the value. Its log begins with all that the pass had
    /// seen, and what follows is of other callers. It waits for as long as others have their turns.
    pub fn enter<R: Wait>(&self, rt: &R, pass: &mut Pass) -> Held<V>
        requires { IsFree self.now pass.old }
        ensures turn { IsTurn self.now pass.new result
            × (number_of pass.new ≡ number_of pass.old)
            × (spare_of pass.new ≡ spare_of pass.old)
            × (held_for result ≡ stands_for pass.old) }
        ensures follows { Follows (number_of pass.old) (seen pass.old) (V.log result.value)
            × (known pass.old ≤ place_after (V.opened result.value) (V.log result.value)) }
        ensures found { found self.now result
            ≡ snapshot V.opened V.log V.mark V.left_open result.value }
        ensures still { Acts V.legal (number_of pass.old) (found self.now result)
            (snapshot V.opened V.log V.mark V.left_open result.value) }
        ensures legal { (V.opened result.value ≡ self.now.opened)
            × V.legal self.now.opened (V.log result.value) }
        ensures mark { Linked (number_of pass.old) (mark_of pass.old) (V.mark result.value)
            × (turn_of pass.old ≤ found_turn result) }
        ensures same { found_turn result ≡ turn_of pass.old
            → (V.mark result.value ≡ mark_of pass.old)
            × (V.left_open result.value ≡ all_left_by pass.old) }
        ensures own { StaysOpen (left_by pass.old)
            (open_of (number_of pass.old) (V.left_open result.value)) }
        ensures alone { stands_for pass.old + spare_of pass.old ≡ 4294967295
            → (V.log result.value ≡ seen pass.old)
            × (V.mark result.value ≡ mark_of pass.old)
            × (V.left_open result.value ≡ all_left_by pass.old) }
    {
        let badge = mem::replace(&mut pass.badge, Badge::blank());
        let mut seat = badge.into_seat::<Option<V>>();
        let ticket = self.table.shared.fetch_add::<Draw>(&mut seat, TICKET, 1);
        if ticket == u64::MAX {
            for _ in rt.forever() {}
            unreachable!()
        }
        self.wait(rt, &mut seat, ticket);
        self.take(seat, ticket)
    }

    /// Gives the value back, with the entries that the caller added, and passes the turn on.
    pub fn leave(&self, held: Held<V>, pass: &mut Pass)
        requires turn { IsTurn self.now pass.old held }
        requires acts { Acts V.legal (number_of pass.old) (found self.now held)
            (snapshot V.opened V.log V.mark V.left_open held.value) }
        ensures free { IsFree self.now pass.new
            × (number_of pass.new ≡ number_of pass.old)
            × (spare_of pass.new ≡ spare_of pass.old)
            × (stands_for pass.new ≡ held_for held) }
        ensures seen { (seen pass.new ≡ V.log held.value)
            × (known pass.new ≡ place_after (V.opened held.value) (V.log held.value)) }
        ensures legal { V.legal self.now.opened (seen pass.new) }
        ensures mark { (mark_of pass.new ≡ V.mark held.value)
            × (turn_of pass.new ≡ found_turn held + 1) }
        ensures left { (left_by pass.new ≡ open_of (number_of pass.old) (V.left_open held.value))
            × (all_left_by pass.new ≡ V.left_open held.value) }
    {
        let Held {
            value,
            mut seat,
            ticket,
        } = held;
        let count = value.count() as u64;
        match self.table.shared.exchange(&mut seat, 0, Some(value)) {
            None => {}
            Some(_) => unreachable!(),
        }
        self.table.shared.store::<Give>(&mut seat, COUNT, count);
        let next = ticket + 1;
        self.table.shared.store::<Serve>(&mut seat, SERVING, next);
        let bell = bell_of(next);
        self.table.shared.store::<Bell>(&mut seat, bell, next);
        self.table.shared.wake_all(bell);
        pass.badge = seat.into_badge();
    }

    /// Splits another pass off, which has seen as much. Its number has no entry since the desk was
    /// made. It takes no memory, and is never refused.
    pub fn split(&self, pass: &mut Pass) -> Result<Pass, NoMemory>
        requires free { IsFree self.now pass.old }
        requires spare { 0 < spare_of pass.old }
        ensures succeeds { IsOk result }
        ensures refused { IfErr result (λ _. pass.new ≡ pass.old) }
        ensures kept { IfOk result
            (λ _. IsFree self.now pass.new
            × Remembers pass.old pass.new
            × (left_by pass.new ≡ left_by pass.old)) }
        ensures count { IfOk result
            (λ _. (number_of pass.new ≡ number_of pass.old)
            × (spare_of pass.new + 1 ≡ spare_of pass.old)
            × (stands_for pass.new ≡ stands_for pass.old)) }
        ensures other { IfOk result
            (λ p. IsFree self.now p × Remembers pass.old p × (left_by p ≡ nothing_open)) }
        ensures number { IfOk result
            (λ p. (number_of p + spare_of pass.old ≡ 4294967296)
            × (spare_of p ≡ 0)
            × (stands_for p ≡ 1)
            × Follows (number_of p) self.now.begun (seen p)) }
    {
        let badge = mem::replace(&mut pass.badge, Badge::blank());
        let mut seat = badge.into_seat::<Option<V>>();
        self.table.shared.load::<Look>(&mut seat, COUNT);
        let other = self.table.shared.split_seat::<Apart>(&mut seat);
        let number = u32::MAX - (pass.spare - 1);
        pass.badge = seat.into_badge();
        pass.spare -= 1;
        Ok(Pass {
            number,
            spare: 0,
            badge: other.into_badge(),
        })
    }

    /// Takes a pass in, and has its numbers too. It has then seen what either had, one of which is
    /// a beginning of the other, and holds the mark of the later turn, which grew from the marks of
    /// both. Nothing of either's callers is new to it that the one with their number hadn't seen.
    /// What the other's caller left open stays open, and is nobody's.
    pub fn join(&self, pass: &mut Pass, other: Pass)
        requires free { IsFree self.now pass.old × IsFree self.now other }
        ensures free { IsFree self.now pass.new × (number_of pass.new ≡ number_of pass.old) }
        ensures seen { (seen pass.new ≡ longer (seen pass.old) (seen other))
            × (known pass.new ≡ max (known pass.old) (known other)) }
        ensures whole { BeginsWith (seen pass.old) (seen pass.new)
            × BeginsWith (seen other) (seen pass.new) }
        ensures follows { Follows (number_of pass.old) (seen pass.old) (seen pass.new) }
        ensures mark { (mark_of pass.new
            ≡ later_mark (turn_of pass.old) (turn_of other) (mark_of pass.old) (mark_of other))
            × (turn_of pass.new ≡ max (turn_of pass.old) (turn_of other)) }
        ensures grows { Grows (mark_of pass.old) (mark_of pass.new)
            × Grows (mark_of other) (mark_of pass.new) }
        ensures carries { CarriesOn pass.old pass.new × CarriesOn other pass.new }
        ensures left { (left_by pass.new ≡ left_by pass.old)
            × (all_left_by pass.new
            ≡ later_open (turn_of pass.old) (turn_of other) (all_left_by pass.old)
            (all_left_by other)) }
        ensures sum { (stands_for pass.new ≡ stands_for pass.old + stands_for other)
            × (spare_of pass.new ≡ max (spare_of pass.old) (spare_of other)) }
    {
        let badge = mem::replace(&mut pass.badge, Badge::blank());
        let mut seat = badge.into_seat::<Option<V>>();
        let Pass {
            number: _,
            spare,
            badge: gone,
        } = other;
        self.table
            .shared
            .join_seat::<Together>(&mut seat, gone.into_seat::<Option<V>>());
        self.table.shared.load::<Compare>(&mut seat, COUNT);
        pass.badge = seat.into_badge();
        pass.spare = pass.spare.max(spare);
    }

    /// Ends the desk, once all passes are one, and gives the value back with the whole log. While
    /// numbers are left, what was added is of callers with numbers that were given, and so is a
    /// fault that is new in the mark. It takes no memory, and is never refused.
    pub fn close(self, pass: Pass) -> Result<V, (Desk<V>, Pass, NoMemory)>
        requires free { IsFree self pass }
        requires all { stands_for pass + spare_of pass ≡ 4294967295 }
        ensures succeeds { IsOk result }
        ensures log { IfOk result
            (λ value. (V.log value ≡ seen pass) × (V.mark value ≡ mark_of pass)) }
        ensures legal { IfOk result
            (λ value. (V.opened value ≡ self.opened) × V.legal self.opened (V.log value)) }
        ensures own { IfOk result
            (λ value. StaysOpen (left_by pass) (open_of (number_of pass) (V.left_open value))
            × (V.left_open value ≡ all_left_by pass)) }
        ensures given { IfOk result
            (λ _. 0 < spare_of pass
            → Since (4294967296 - spare_of pass) self.begun (seen pass)
            × IsGiven (4294967296 - spare_of pass) self.marked (mark_of pass)) }
        ensures refused { IfErr result (λ e. (e.0 ≡ self) × (e.1 ≡ pass)) }
    {
        let Desk { table } = self;
        let Pass {
            number: _,
            spare: _,
            badge,
        } = pass;
        let mut closed = table.close_with(badge.into_seat::<Option<V>>());
        let inside = closed.take(0);
        closed.free();
        match inside {
            Some(value) => Ok(value),
            None => unreachable!(),
        }
    }

    /// Ends the desk, with all that is in it, whatever other passes there are.
    pub fn give_up(self, pass: Pass)
    where
        V: Drop,
    {
        let Desk { table } = self;
        drop(table);
        let Pass {
            number: _,
            spare: _,
            badge: _,
        } = pass;
    }

    /// Waits until the ticket is served.
    fn wait<R: Wait>(&self, rt: &R, seat: &mut Seat<Option<V>, View>, ticket: u64)
        requires { (seat.old.table_id ≡ self.now.table)
            × (seat.old.me.0.stage ≡ Waiting)
            × (ticket ≡ seat.old.me.0.ticket % 18446744073709551616) }
        ensures { (seat.new.table_id ≡ seat.old.table_id)
            × (seat.new.me.0 ≡ at_stage seat.old.me.0 Called)
            × (seat.old.me.0.ticket ≡ ticket)
            × (seat.new.me.1 ≡ seat.old.me.1) }
    {
        let bell = bell_of(ticket);
        for _ in rt.forever() {
            // The bell is read first: one that rings after the ticket was looked at ends the sleep.
            let rung = self.table.shared.load::<Bell>(seat, bell);
            let serving = self.table.shared.load::<Call>(seat, SERVING);
            if serving == ticket {
                return;
            }
            let low = (rung & 0xffff_ffff) as u32;
            self.table.shared.park(rt, bell, low);
        }
        unreachable!()
    }

    /// Takes the value out of its slot.
    fn take(&self, mut seat: Seat<Option<V>, View>, ticket: u64) -> Held<V>
        requires { (seat.table_id ≡ self.now.table)
            × (seat.me.0.stage ≡ Called)
            × (seat.me.1 ≡ []) }
        ensures kept { (result.ticket ≡ ticket)
            × (result.seat.table_id ≡ seat.table_id)
            × (result.seat.me.0
            ≡ finding seat.me.0 (V.opened result.value) (V.log result.value) (V.mark result.value)
            (V.left_open result.value) result.seat.me.0.turn)
            × (result.seat.me.1 ≡ (0, None) ∷ []) }
        ensures found { Found V.log V.opened V.legal V.mark V.left_open seat.me
            (result.seat.me.0, (0, Some result.value) ∷ []) result.value }
    {
        self.table.shared.load::<Take>(&mut seat, COUNT);
        match self.table.shared.exchange(&mut seat, 0, None) {
            Some(value) => Held {
                value,
                seat,
                ticket,
            },
            None => unreachable!(),
        }
    }
}

impl Pass {
    /// The number that its entries carry.
    pub fn number(&self) -> u32
        ensures { result ≡ number_of self.now }
    {
        self.number
    }

    /// A place that the log had come to, not before the known one, which is known from now on.
    pub fn meet<V: Logged>(&mut self, desk: &Desk<V>) -> u32
        requires { IsFree desk.now self.old }
        ensures free { Keeps desk.now self.old self.new }
        ensures met { (known self.new ≡ result) × (known self.old ≤ result) }
        ensures kept { (seen self.new ≡ seen self.old)
            × (mark_of self.new ≡ mark_of self.old)
            × (turn_of self.new ≡ turn_of self.old)
            × (left_by self.new ≡ left_by self.old) }
        ensures all_left { all_left_by self.new ≡ all_left_by self.old }
    {
        let badge = mem::replace(&mut self.badge, Badge::blank());
        let mut seat = badge.into_seat::<Option<V>>();
        let count = desk.table.shared.load::<Meet>(&mut seat, COUNT);
        self.badge = seat.into_badge();
        count as u32
    }
}
