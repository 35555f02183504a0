// The callers of the kernel as a library, in a run each.

ghost use Rattle.std.specs.Prelude.{◌≡◌, length};

mod faults;

use drive_sim::Drive;
use kernel_uses::{
    draw_line, machine_of_a_group, machine_of_one_axis, move_axis, reset_axis, verify_text,
    write_run,
};
use motion_kernel::Kernel;
use outside::MemorySink;
use std::alloc::Global;
use std::test::Fail;
use trace_check::Verdict;

// Whether a move fails by its drive, a Reset is done, and so is a move once more.
fn moves_again(kernel: &mut Kernel, drive: &mut Drive) -> bool
    requires axis { length kernel.old.config.axes ≡ 1 }
    ensures axis { length kernel.new.config.axes ≡ 1 }
{
    let Ok(failed) = move_axis(kernel, drive, 20) else {
        return false;
    };
    let Ok(reset) = reset_axis(kernel, drive) else {
        return false;
    };
    let Ok(moved) = move_axis(kernel, drive, 20) else {
        return false;
    };
    failed.error_id == 101 && reset.done && moved.done
}

// Whether the trace of a run is legal, and has each entry of its history.
fn has_a_legal_trace(alloc: Global, kernel: &Kernel, drives: &[Drive]) -> bool
    requires each { length drives.now ≡ length kernel.now.config.axes }
{
    let Ok(mut out) = MemorySink::new(alloc, &[], 1_000) else {
        return false;
    };
    let Ok(()) = write_run(alloc, kernel, drives, &mut out) else {
        return false;
    };
    let Ok(verdict) = verify_text(alloc, out.bytes()) else {
        return false;
    };
    let entries = kernel.history().entries();
    matches!(verdict, Verdict::Legal { entries: found } if found == entries)
}

#[test]
fn resets_an_axis_after_a_fault_of_its_drive(rt: HostRuntime) -> Result<(), Fail> {
    let mut kernel = Kernel::open(rt.alloc(), machine_of_one_axis(rt.alloc())?)?;
    let mut drive = Drive::open(rt.alloc(), 0, &[8], 0, false)?;
    let moved = moves_again(&mut kernel, &mut drive);
    let legal = has_a_legal_trace(rt.alloc(), &kernel, &[drive]);
    assert!(rt; moved);
    assert!(rt; legal);
    Ok(())
}

#[test]
fn draws_a_line_with_two_axes(rt: HostRuntime) -> Result<(), Fail> {
    let mut kernel = Kernel::open(rt.alloc(), machine_of_a_group(rt.alloc())?)?;
    let x = Drive::open(rt.alloc(), 0, &[], 0, true)?;
    let y = Drive::open(rt.alloc(), 0, &[], 0, true)?;
    let drawn = draw_line(&mut kernel, &mut [x, y], [30, 10]);
    assert!(rt; matches!(drawn, Ok(outputs) if outputs.done));
    Ok(())
}
