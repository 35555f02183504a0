// The steps of the lock, as a permit takes them.

ghost use Rattle.std.specs.Prelude.{◌≡◌, ◌<◌, ◌%◌, ◌^◌, ◌∷◌, [], MatchBool, true, false, Some, None};
ghost use mathlib.Core.List.{IsPrefix};
ghost use Rattle.motion_kernel.specs.KernelState.{KernelState};
ghost use Rattle.kernel_turn.specs.Inside.{IsReady};
ghost use Rattle.kernel_turn.specs.Steps.{Grows, Holds, IsSeatOf, IsWhole, StaysStopped, Takes};
ghost use Rattle.kernel_turn.specs.Turns.{IsLawful};
ghost use Rattle.kernel_turn.specs.Views.{settled_view, split_view, view_after_join, view_after_split, view_after_turn, with_found, with_number};

use crate::housed::Housed;
use crate::rule::{Drawing, Joins, Looking, Passing, PermitSeat, Settling, Splits, Stopping, Top};
use crossbeam_utils::Backoff;
use std::sync::Wait;

// Draws a number.
fn draw(top: &Top, seat: &mut PermitSeat) -> u64
    requires lock { IsSeatOf seat.old.table_id top.now.table_id }
    requires ready { IsReady seat.old.me }
    ensures same { (seat.new.table_id ≡ seat.old.table_id) × (seat.new.id ≡ seat.old.id) }
    ensures drawn { (h : _) × (h % 2 ^ 64 ≡ result) ×
        (seat.new.me ≡ (with_number seat.old.me.0 h, [])) }
{
    top.fetch_add::<Drawing>(seat, 0, 1)
}

// Takes the kernel where the number in hand is served.
fn look(top: &Top, seat: &mut PermitSeat, number: u64) -> bool
    requires lock { IsSeatOf seat.old.table_id top.now.table_id }
    requires live { (seat.old.me.0.live ≡ true) × (seat.old.me.0.found ≡ None) ×
        (seat.old.me.1 ≡ []) }
    requires hand { (h : _) × (h % 2 ^ 64 ≡ number) × (seat.old.me.0.hand ≡ Some h) }
    ensures same { (seat.new.table_id ≡ seat.old.table_id) × (seat.new.id ≡ seat.old.id) }
    ensures taken { MatchBool result (Takes seat.old.me seat.new.me)
        (seat.new.me ≡ seat.old.me) }
{
    top.load::<Looking>(seat, 1) == number
}

// Moves the kernel out of its place, which is the permit's.
fn take_out(top: &Top, seat: &mut PermitSeat) -> Housed
    requires lock { IsSeatOf seat.old.table_id top.now.table_id }
    requires held { (k : KernelState) × (seat.old.me.1 ≡ (0, Some k) ∷ []) }
    ensures same { (seat.new.table_id ≡ seat.old.table_id) × (seat.new.id ≡ seat.old.id) }
    ensures taken { (seat.old.me.1 ≡ (0, Some result) ∷ []) ×
        (seat.new.me ≡ (seat.old.me.0, (0, None) ∷ [])) }
{
    match top.exchange(seat, 0, None) {
        Some(kernel) => kernel,
        None => unreachable!(),
    }
}

// Moves the kernel into its place.
fn put_back(top: &Top, seat: &mut PermitSeat, kernel: Housed)
    requires lock { IsSeatOf seat.old.table_id top.now.table_id }
    requires held { seat.old.me.1 ≡ (0, None) ∷ [] }
    ensures same { (seat.new.table_id ≡ seat.old.table_id) × (seat.new.id ≡ seat.old.id) }
    ensures put { seat.new.me ≡ (seat.old.me.0, (0, Some kernel) ∷ []) }
{
    let _ = top.exchange(seat, 0, Some(kernel));
}

// Waits until the number in hand is served, and takes the kernel.
fn wait<R: Wait>(rt: &R, top: &Top, seat: &mut PermitSeat, number: u64) -> Housed
    requires lock { IsSeatOf seat.old.table_id top.now.table_id }
    requires live { (seat.old.me.0.live ≡ true) × (seat.old.me.0.found ≡ None) ×
        (seat.old.me.1 ≡ []) }
    requires hand { (h : _) × (h % 2 ^ 64 ≡ number) × (seat.old.me.0.hand ≡ Some h) }
    ensures same { (seat.new.table_id ≡ seat.old.table_id) × (seat.new.id ≡ seat.old.id) }
    ensures found { (seat.new.me ≡ (with_found seat.old.me.0 result, (0, None) ∷ [])) ×
        IsPrefix seat.old.me.0.seen result.history × (result.config ≡ seat.old.me.0.config) }
    ensures stopped { StaysStopped seat.old.me.0 result }
    ensures whole { seat.old.me.0.opening ≡ true → seat.old.me.0.out ≡ 0 →
        IsWhole seat.old.me.0 result }
{
    let backoff = Backoff::new();
    for _ in rt.forever() {
        if look(top, seat, number) {
            return take_out(top, seat);
        }
        backoff.snooze();
    }
    unreachable!()
}

// Draws a number, waits for it and takes the kernel.
pub fn take<R: Wait>(rt: &R, top: &Top, seat: &mut PermitSeat) -> Housed
    requires lock { IsSeatOf seat.old.table_id top.now.table_id }
    requires ready { IsReady seat.old.me }
    ensures same { (seat.new.table_id ≡ seat.old.table_id) × (seat.new.id ≡ seat.old.id) }
    ensures holds { Holds seat.old.me.0 result seat.new.me }
{
    let number = draw(top, seat);
    wait(rt, top, seat, number)
}

// Gives the kernel back, and the turn to the next number.
pub fn pass_on(top: &Top, seat: &mut PermitSeat, kernel: Housed)
    requires lock { IsSeatOf seat.old.table_id top.now.table_id }
    requires live { (seat.old.me.0.live ≡ true) × (seat.old.me.1 ≡ (0, None) ∷ []) }
    requires grows { (f : KernelState) × (seat.old.me.0.found ≡ Some f) × Grows false f kernel }
    ensures same { (seat.new.table_id ≡ seat.old.table_id) × (seat.new.id ≡ seat.old.id) }
    ensures passed { seat.new.me ≡ (view_after_turn false seat.old.me.0 kernel, []) }
    ensures lawful { IsLawful kernel.config kernel.history }
{
    let _ = kernel.kernel.history();
    put_back(top, seat, kernel);
    top.fetch_add::<Passing>(seat, 1, 1);
}

// Gives the kernel back, stopped, and the turn to the next number.
pub fn stop_on(top: &Top, seat: &mut PermitSeat, kernel: Housed)
    requires lock { IsSeatOf seat.old.table_id top.now.table_id }
    requires live { (seat.old.me.0.live ≡ true) × (seat.old.me.1 ≡ (0, None) ∷ []) }
    requires grows { (f : KernelState) × (seat.old.me.0.found ≡ Some f) × Grows true f kernel }
    ensures same { (seat.new.table_id ≡ seat.old.table_id) × (seat.new.id ≡ seat.old.id) }
    ensures passed { seat.new.me ≡ (view_after_turn true seat.old.me.0 kernel, []) }
    ensures lawful { IsLawful kernel.config kernel.history }
{
    let _ = kernel.kernel.history();
    put_back(top, seat, kernel);
    top.fetch_add::<Stopping>(seat, 1, 1);
}

// Splits a permit from the opening permit.
pub fn split_seat(top: &Top, seat: &mut PermitSeat) -> PermitSeat
    requires lock { IsSeatOf seat.old.table_id top.now.table_id }
    requires ready { IsReady seat.old.me }
    requires opening { (seat.old.me.0.opening ≡ true) × (seat.old.me.0.out < 1000) }
    ensures same { (seat.new.table_id ≡ seat.old.table_id) × (seat.new.id ≡ seat.old.id) }
    ensures view { seat.new.me ≡ (view_after_split seat.old.me.0, []) }
    ensures given { (result.table_id ≡ seat.old.table_id) ×
        (result.me ≡ (split_view seat.old.me.0, [])) }
{
    top.split_seat::<Splits>(seat)
}

// Joins a permit into the opening permit; its history lies aside.
fn merge(top: &Top, seat: &mut PermitSeat, other: PermitSeat)
    requires lock { IsSeatOf seat.old.table_id top.now.table_id }
    requires ready { IsReady seat.old.me }
    requires opening { seat.old.me.0.opening ≡ true }
    requires other { (other.table_id ≡ top.now.table_id) × IsReady other.me }
    ensures same { (seat.new.table_id ≡ seat.old.table_id) × (seat.new.id ≡ seat.old.id) }
    ensures view { seat.new.me ≡ (view_after_join seat.old.me.0 other.me.0, []) }
{
    top.join_seat::<Joins>(seat, other);
}

// The history that was seen becomes the longer of the two.
fn settle(top: &Top, seat: &mut PermitSeat)
    requires lock { IsSeatOf seat.old.table_id top.now.table_id }
    requires ready { IsReady seat.old.me }
    ensures same { (seat.new.table_id ≡ seat.old.table_id) × (seat.new.id ≡ seat.old.id) }
    ensures begins { IsPrefix seat.old.me.0.seen seat.new.me.0.seen }
    ensures begins_aside { IsPrefix seat.old.me.0.aside seat.new.me.0.seen }
    ensures view { seat.new.me ≡ (settled_view seat.old.me.0, []) }
{
    top.load::<Settling>(seat, 0);
}

// Joins a permit into the opening permit, which has then seen what either has.
pub fn join_seat(top: &Top, seat: &mut PermitSeat, other: PermitSeat)
    requires lock { IsSeatOf seat.old.table_id top.now.table_id }
    requires ready { IsReady seat.old.me }
    requires opening { seat.old.me.0.opening ≡ true }
    requires other { (other.table_id ≡ top.now.table_id) × IsReady other.me }
    ensures same { (seat.new.table_id ≡ seat.old.table_id) × (seat.new.id ≡ seat.old.id) }
    ensures begins { IsPrefix seat.old.me.0.seen seat.new.me.0.seen }
    ensures begins_other { IsPrefix other.me.0.seen seat.new.me.0.seen }
    ensures view { seat.new.me ≡
        (settled_view (view_after_join seat.old.me.0 other.me.0), []) }
{
    merge(top, seat, other);
    settle(top, seat);
}
