// The bits that the numbers of a machine have by their types. Nothing is changed.

ghost use Rattle.std.specs.Prelude.{◌≡◌, ◌≤◌, ◌<◌, Bool, IfSome, Some, length, slice_get};
ghost use Rattle.std.specs.List.{AllByRecursion};
ghost use Rattle.command_pool.specs.Waiting.{queue_of};
ghost use Rattle.buffer_modes.specs.declared.reset.PendingReset as spec;
ghost use Rattle.fb_outputs.specs.InstanceState.{InstanceState};
ghost use Rattle.fb_outputs.specs.declared.instance.Progress.TheVariants as progress;
ghost use Rattle.group_core.specs.Seen.{on_path, way_of};
ghost use Rattle.motion_kernel.specs.Seen.{placed};
ghost use Rattle.motion_kernel.specs.kept.Machine.{IsSized};
ghost use Rattle.segment_text.specs.Held.{AreRates, AreSix, AreWaiting, AreWideLimits, HasAxisBits, HasGroupBits, HasMachineBits, IsFollow, IsOnPath, IsProgress, IsWanted, IsWay, IsWide, IsWord};

use axis_core::Axis;
use buffer_modes::PendingReset;
use command_pool::{Finish, Follow, Rates, Wanted};
use fb_outputs::{Instance, Progress};
use group_core::{GroupOnPath, Limits, LinePath, Motion, Track};
use motion_history::Config;
use motion_kernel::Start;

// A byte has 8 bits.
fn byte_fits(byte: u8)
    ensures { byte ≤ 255 }
{}

// A word has 16.
fn word_fits(word: u16)
    ensures { IsWord word }
{}

// A number has 64.
fn number_fits(number: i64)
    ensures { IsWide number }
{}

// So has each of some numbers.
fn numbers_fit(numbers: &[i64])
    ensures { AllByRecursion IsWide numbers.now }
{
    for number in numbers {
        number_fits(*number);
    }
}

// There are six of them.
fn six_fit(numbers: [i64; 6])
    ensures { AreSix numbers }
{
    numbers_fit(&numbers);
}

// The number of an instance, if there is one, is a word.
fn owner_fits(owner: Option<u16>)
    ensures { IfSome owner IsWord }
{
    if let Some(instance) = owner {
        word_fits(instance);
    }
}

// So is that of a pending reset.
fn reset_fits(reset: Option<PendingReset>)
    ensures { IfSome reset (λ (r : spec.PendingReset). IfSome r.owner IsWord) }
{
    if let Some(pending) = reset {
        owner_fits(pending.owner);
    }
}

// A target, where it is fixed, has 64 bits.
fn target_fits(target: Option<i64>)
    ensures { IfSome target IsWide }
{
    if let Some(place) = target {
        number_fits(place);
    }
}

// So have rates.
fn rates_fit(rates: &Rates)
    ensures { AreRates rates.now }
{
    number_fits(rates.v);
    number_fits(rates.a);
    number_fits(rates.d);
}

// The numbers of whom a command follows have their bits.
fn follow_fits(follow: &Follow)
    ensures { IsFollow follow.now }
{
    match *follow {
        Follow::None => {}
        Follow::Gear { master, n, d } => {
            byte_fits(master);
            number_fits(n);
            number_fits(d);
        }
        Follow::Cam { master, table } => {
            byte_fits(master);
            word_fits(table);
        }
    }
}

// The numbers of a command have theirs.
fn wanted_fits(wanted: &Wanted)
    ensures { IsWanted wanted.now }
{
    owner_fits(wanted.owner);
    target_fits(wanted.target);
    six_fit(wanted.targets);
    rates_fit(&wanted.rates);
    follow_fits(&wanted.follow);
}

// So have those of the active command, if there is one.
fn active_fits(active: &Option<Wanted>)
    ensures { IfSome active.now IsWanted }
{
    if let Some(wanted) = active {
        wanted_fits(wanted);
    }
}

// So have those of an axis.
fn axis_has_bits(axis: &Axis)
    ensures { HasAxisBits axis.now }
{
    word_fits(axis.error);
    number_fits(axis.previous);
    number_fits(axis.setpoint);
    number_fits(axis.offset);
    active_fits(&axis.active);
    reset_fits(axis.reset);
    owner_fits(axis.hold);
    word_fits(axis.controlword);
}

// So have limits.
fn limits_fit(limits: &Limits)
    ensures { AreWideLimits limits.now }
{
    number_fits(limits.lo);
    number_fits(limits.hi);
    number_fits(limits.vmax);
    number_fits(limits.amax);
    number_fits(limits.dmax);
}

// A line has 2 to 6 axes, and its places are within 10^15.
#[tactic(auto, using(crate::proofs::BitLaws::are_all_places))]
fn line_fits(line: &LinePath)
    ensures { IsWay (way_of line.now) }
{
    six_fit(line.starts);
    six_fit(line.targets);
}

// The numbers of a path have their bits.
fn track_fits(track: &Track<LinePath>)
    ensures { IfSome (on_path (Some track.now)) IsOnPath }
{
    line_fits(&track.path);
    limits_fit(&track.motion.limits);
    number_fits(track.motion.previous);
    number_fits(track.motion.place);
}

// So have those of the path of a group, if it is on one.
fn path_fits(track: &Option<Track<LinePath>>)
    ensures { IfSome (on_path track.now) IsOnPath }
{
    if let Some(track) = track {
        track_fits(track);
    }
}

// So have those of a group.
fn group_has_bits(group: &GroupOnPath<LinePath>)
    ensures { HasGroupBits (placed group.now) }
{
    word_fits(group.group.error);
    active_fits(&group.group.active);
    reset_fits(group.group.reset);
    owner_fits(group.group.hold);
    path_fits(&group.track);
}

// So has that of the error with which a command ended.
fn finish_fits(finish: Finish)
    ensures { (shown : Bool) → IsProgress (progress.Ended finish shown) }
{
    match finish {
        Finish::Done => {}
        Finish::Aborted => {}
        Finish::Error(number) => word_fits(number),
    }
}

// So has what is known of how far a command is.
fn progress_fits(progress: Progress)
    ensures { IsProgress progress }
{
    match progress {
        Progress::Idle => {}
        Progress::Waiting => {}
        Progress::Active => {}
        Progress::Ended { finish, .. } => finish_fits(finish),
    }
}

// So have those of the axis of a number, if it is there.
fn axis_at_has_bits(start: &Start, axis: u8)
    ensures { IfSome (slice_get start.now.axes axis) HasAxisBits }
{
    if let Some(now) = start.axis(axis) {
        // laws
        axis_has_bits(now);
    }
}

// So have those of the group of a number.
fn group_at_has_bits(start: &Start, group: u8)
    ensures { IfSome (slice_get start.now.groups group) HasGroupBits }
{
    if let Some(now) = start.group(group) {
        // laws
        group_has_bits(now);
    }
}

// So have those of the instance of a block.
fn instance_at_has_bits(start: &Start, block: u16)
    ensures { IfSome (slice_get start.now.instances block) (λ (i : InstanceState). IsProgress i.progress) }
{
    if let Some(now) = start.instance(block) {
        // laws
        progress_fits(now.progress());
    }
}

// So have those of the command at a place of a list.
fn waiting_at_has_bits(start: &Start, list: u8, place: u8)
    requires { list < length start.now.queues }
    ensures { IfSome (slice_get (queue_of start.now.queues list) place) IsWanted }
{
    if let Some(wanted) = start.waiting(list, place) {
        // laws
        wanted_fits(wanted);
    }
}

// So have those of all commands of a list, and there are at most eight.
fn list_has_bits(start: &Start, list: u8)
    requires { list < length start.now.queues }
    ensures { AreWaiting (queue_of start.now.queues list) }
{
    for place in 0..start.waiting_count(list) {
        waiting_at_has_bits(start, list, place);
    }
}

// So have those of all lists, which are this many.
fn lists_have_bits(start: &Start, lists: u8)
    requires { lists ≡ length start.now.queues }
    ensures { AllByRecursion AreWaiting start.now.queues }
{
    for list in 0..lists {
        list_has_bits(start, list);
    }
}

// So have those of all axes, which are this many.
fn axes_have_bits(start: &Start, axes: u8)
    requires { axes ≡ length start.now.axes }
    ensures { AllByRecursion HasAxisBits start.now.axes }
{
    for axis in 0..axes {
        axis_at_has_bits(start, axis);
    }
}

// So have those of all groups.
fn groups_have_bits(start: &Start, groups: u8)
    requires { groups ≡ length start.now.groups }
    ensures { AllByRecursion HasGroupBits start.now.groups }
{
    for group in 0..groups {
        group_at_has_bits(start, group);
    }
}

// So have those of all instances.
fn instances_have_bits(start: &Start, blocks: u16)
    requires { blocks ≡ length start.now.instances }
    ensures { AllByRecursion (λ (i : InstanceState). IsProgress i.progress) start.now.instances }
{
    for block in 0..blocks {
        instance_at_has_bits(start, block);
    }
}

/// The numbers of a machine have the bits of their types, and at most eight commands wait in a
/// list: so a header can hold it. It goes through the machine, and changes nothing.
pub fn numbers_have_bits(config: &Config, start: &Start)
    requires { IsSized config.now start.now }
    ensures { HasMachineBits start.now }
{
    let axes = config.axes().len() as u8;
    let groups = config.groups().len() as u8;
    axes_have_bits(start, axes);
    groups_have_bits(start, groups);
    lists_have_bits(start, axes + groups);
    instances_have_bits(start, config.blocks().len() as u16);
}
