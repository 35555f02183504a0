// One cycle of the machine.

ghost use Rattle.std.specs.Prelude.{◌≡◌, IfOk, length, map};
ghost use Rattle.plc_types.specs.declared.axis.AxisRow.{AxisRow};
ghost use Rattle.motion_kernel.specs.cycles.Asides.{HasPlaces, MayTakeCycle};
ghost use Rattle.motion_kernel.specs.looks.AxisLooks as looks;
ghost use Rattle.motion_kernel.specs.cycles.Cycles as spec;
ghost use Rattle.motion_kernel.specs.kept.Machine.{IsSized};
ghost use Rattle.motion_kernel.specs.kept.Ready.{MayGoOn, MayStep};
ghost use Rattle.motion_kernel.specs.Seen.{machine_of};

use crate::axis_cycles::cycle_axes;
use crate::axis_looks::{Around, NO_STEP};
use crate::group_cycles::{reset_groups, step_groups};
use crate::layout::Layout;
use crate::parts::Parts;
use crate::showing::show_cycle;
use axis_core::AxisCore;
use group_core::GroupStep;
use motion_history::History;
use plc_types::{DriveIn, DriveOut};
use std::alloc::{AllocError, Global};

// The setpoints of all axes.
fn copy_pairs(axes: &[AxisCore], pairs: &mut [(i64, i64)])
    requires { length pairs.old ≡ length axes.now }
    ensures { pairs.new ≡ map looks.pair_of axes.now }
{
    for (i, axis) in axes.iter().enumerate() {
        pairs[i] = axis.pair();
    }
}

/// What a cycle looks at besides the machine, in room that is taken at opening.
#[derive(Drop)]
pub struct Aside {
    /// The setpoints of all axes at the end of the previous cycle.
    pub pairs: Vec<(i64, i64)>,
    /// What the groups ask of their axes.
    pub steps: Vec<GroupStep>,
}

impl Aside {
    /// Room for this many axes and groups.
    pub fn open(alloc: Global, layout: &Layout) -> Result<Aside, AllocError>
        ensures { IfOk result (HasPlaces layout.now) }
    {
        let axes = layout.config().axes().len();
        let groups = layout.config().groups().len();
        Ok(Aside {
            pairs: vec![in alloc; (0, 0); axes]?,
            steps: vec![in alloc; NO_STEP; groups]?,
        })
    }
}

// The setpoints of all axes are set aside, and the groups take their steps.
fn step_aside(ins: &[DriveIn], layout: &Layout, parts: &mut Parts, aside: &mut Aside)
    requires sized { IsSized layout.now (machine_of parts.old) }
    requires step { MayStep layout.now ins.now (machine_of parts.old) }
    requires places { HasPlaces layout.now aside.old }
    ensures after { machine_of parts.new ≡ (spec.stepped_in layout.now ins.now
        (machine_of parts.old)).machine }
    ensures pairs { aside.new.pairs.items ≡ map looks.pair_of (machine_of parts.old).axes }
    ensures steps { aside.new.steps.items ≡ (spec.stepped_in layout.now ins.now
        (machine_of parts.old)).steps }
    ensures places { HasPlaces layout.now aside.new }
    ensures sized { IsSized layout.now (machine_of parts.new) }
{
    copy_pairs(parts.axes.as_slice(), aside.pairs.as_mut_slice());
    step_groups(layout, ins, parts, aside.steps.as_mut_slice());
}

// The groups step, the axes go through the cycle, and the groups' Resets are done.
fn go_through(
    ins: &[DriveIn],
    layout: &Layout,
    parts: &mut Parts,
    aside: &mut Aside,
    history: &mut History,
    outs: &mut [DriveOut],
)
    requires sized { IsSized layout.now (machine_of parts.old) }
    requires step { MayStep layout.now ins.now (machine_of parts.old) }
    requires go_on { MayGoOn layout.now (spec.around_in layout.now ins.now (machine_of parts.old))
        (spec.stepped_in layout.now ins.now (machine_of parts.old)).machine }
    requires places { HasPlaces layout.now aside.old }
    requires history { MayTakeCycle layout.now history.old }
    requires outs { length outs.old ≡ length layout.now.axes }
    ensures after { machine_of parts.new ≡ (spec.cycled layout.now
        (machine_of parts.old) ins.now).machine }
    ensures rows { history.new ≡ record history.old {
      rows = (spec.cycled layout.now (machine_of parts.old) ins.now).axes;
      group_rows = (spec.cycled layout.now (machine_of parts.old) ins.now).groups;
    } }
    ensures outs { outs.new ≡ map (λ (r : AxisRow). r.output) (spec.cycled layout.now
        (machine_of parts.old) ins.now).axes }
    ensures places { HasPlaces layout.now aside.new }
    ensures sized { IsSized layout.now (machine_of parts.new) }
{
    step_aside(ins, layout, parts, aside);
    let around = Around {
        answers: ins,
        pairs: aside.pairs.as_slice(),
        steps: aside.steps.as_slice(),
    };
    cycle_axes(layout, &around, parts, history, outs);
    reset_groups(layout, parts, history);
}

/// A cycle of the machine: the rows of its axes and groups are the history's, and the drives get
/// what these give.
pub fn cycle_machine(
    ins: &[DriveIn],
    layout: &Layout,
    parts: &mut Parts,
    aside: &mut Aside,
    history: &mut History,
    outs: &mut [DriveOut],
)
    requires sized { IsSized layout.now (machine_of parts.old) }
    requires step { MayStep layout.now ins.now (machine_of parts.old) }
    requires go_on { MayGoOn layout.now (spec.around_in layout.now ins.now (machine_of parts.old))
        (spec.stepped_in layout.now ins.now (machine_of parts.old)).machine }
    requires places { HasPlaces layout.now aside.old }
    requires history { MayTakeCycle layout.now history.old }
    requires outs { length outs.old ≡ length layout.now.axes }
    ensures after { machine_of parts.new ≡ spec.after_cycle layout.now
        (machine_of parts.old) ins.now }
    ensures rows { history.new ≡ record history.old {
      rows = (spec.cycled layout.now (machine_of parts.old) ins.now).axes;
      group_rows = (spec.cycled layout.now (machine_of parts.old) ins.now).groups;
    } }
    ensures outs { outs.new ≡ map (λ (r : AxisRow). r.output) (spec.cycled layout.now
        (machine_of parts.old) ins.now).axes }
    ensures places { HasPlaces layout.now aside.new }
{
    go_through(ins, layout, parts, aside, history, outs);
    show_cycle(layout, parts);
}
