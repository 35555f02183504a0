// Commands, written in the records of a header.

ghost use Rattle.std.specs.Prelude.{◌≡◌, ◌++◌, OnOk};
ghost use Rattle.segment_text.specs.Fields.{follow_fields};
ghost use Rattle.segment_text.specs.Texts.{fields_text};
ghost use Rattle.segment_text.specs.WantedFields as spec;

use crate::writing::field::{owner_text, push_fields, push_numbers, target_text};
use command_pool::{Follow, Rates, Wanted};
use itoa::Buffer;
use plc_types::{kind_name, mode_name};
use std::alloc::AllocError;

// Puts the fields before the positions of a command.
fn push_kind(out: &mut Vec<u8>, wanted: &Wanted) -> Result<(), AllocError>
    ensures { OnOk result (out.new.items ≡
        out.old.items ++ fields_text (spec.kind_fields wanted.now)) }
{
    let mut owner = Buffer::new();
    let mut target = Buffer::new();
    let fields = [
        kind_name(wanted.kind).as_bytes(),
        owner_text(&mut owner, wanted.owner),
        target_text(&mut target, wanted.target),
        mode_name(wanted.mode).as_bytes(),
    ];
    push_fields(out, &fields)
}

// Puts rates.
fn push_rates(out: &mut Vec<u8>, rates: &Rates) -> Result<(), AllocError>
    ensures { OnOk result (out.new.items ≡
        out.old.items ++ fields_text (spec.rates_fields rates.now)) }
{
    push_numbers(out, &[rates.v, rates.a, rates.d])
}

// Puts whom a command follows, if it follows one.
#[tactic(auto, unfolding(crate::specs::Fields::follow_fields, crate::specs::Texts::fields_text))]
fn push_follow(out: &mut Vec<u8>, follow: &Follow) -> Result<(), AllocError>
    ensures { OnOk result (out.new.items ≡
        out.old.items ++ fields_text (follow_fields follow.now)) }
{
    match *follow {
        Follow::None => Ok(()),
        Follow::Gear { master, n, d } => push_gear(out, master, n, d),
        Follow::Cam { master, table } => push_cam(out, master, table),
    }
}

// Puts a gear.
#[tactic(auto, unfolding(crate::specs::Fields::follow_fields))]
fn push_gear(out: &mut Vec<u8>, master: u8, n: i64, d: i64) -> Result<(), AllocError>
    ensures { OnOk result (out.new.items ≡
        out.old.items ++ fields_text (follow_fields (Follow.Gear master n d))) }
{
    let mut first = Buffer::new();
    let mut second = Buffer::new();
    let mut third = Buffer::new();
    let fields = [
        b"gear".as_slice(),
        first.format(master).as_bytes(),
        second.format(n).as_bytes(),
        third.format(d).as_bytes(),
    ];
    push_fields(out, &fields)
}

// Puts a cam.
#[tactic(auto, unfolding(crate::specs::Fields::follow_fields))]
fn push_cam(out: &mut Vec<u8>, master: u8, table: u16) -> Result<(), AllocError>
    ensures { OnOk result (out.new.items ≡
        out.old.items ++ fields_text (follow_fields (Follow.Cam master table))) }
{
    let mut first = Buffer::new();
    let mut second = Buffer::new();
    let fields = [
        b"cam".as_slice(),
        first.format(master).as_bytes(),
        second.format(table).as_bytes(),
    ];
    push_fields(out, &fields)
}

/// Puts a command.
pub fn push_wanted(out: &mut Vec<u8>, wanted: &Wanted) -> Result<(), AllocError>
    ensures { OnOk result (out.new.items ≡
        out.old.items ++ fields_text (spec.wanted_fields wanted.now)) }
{
    push_kind(out, wanted)?;
    push_numbers(out, &wanted.targets)?;
    push_rates(out, &wanted.rates)?;
    push_follow(out, &wanted.follow)
}

/// Puts the active command, if there is one.
#[tactic(auto, unfolding(crate::specs::WantedFields::active_fields, crate::specs::Texts::fields_text))]
pub fn push_active(out: &mut Vec<u8>, active: Option<Wanted>) -> Result<(), AllocError>
    ensures { OnOk result (out.new.items ≡
        out.old.items ++ fields_text (spec.active_fields active)) }
{
    match active {
        Some(wanted) => push_wanted(out, &wanted),
        None => Ok(()),
    }
}
