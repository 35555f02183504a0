// What the instances of blocks are given.

ghost use Rattle.std.specs.Prelude.{◌≡◌, [], length};
ghost use Rattle.motion_kernel.specs.Seen.{machine_of};
ghost use Rattle.motion_kernel.specs.calls.Telling as spec;

use crate::parts::Parts;
use command_pool::{Finish, Note, Notes};
use fb_outputs::Instance;

// Reports an instance, where it is there, how its command ended.
#[tactic(auto, using(crate::proofs::Lists::not_set))]
fn finish(owner: u16, finish: Finish, instances: &mut [Instance])
    ensures { instances.new ≡ spec.told_end owner finish instances.old }
{
    if (owner as usize) < instances.len() {
        let instance = &mut instances[owner as usize];
        instance.on_finish(finish);
    }
}

// Reports instances how their commands ended, one after another.
fn finish_all(notes: &[Note], instances: &mut [Instance])
    ensures told { instances.new ≡ spec.told_notes notes.now instances.old }
    ensures long { length instances.new ≡ length instances.old }
{
    for note in notes {
        finish(note.owner, note.finish, instances);
    }
}

/// Reports the instances of the machine how their commands ended, one after another.
pub fn tell(notes: &Notes, parts: &mut Parts)
    ensures told { machine_of parts.new ≡ record (machine_of parts.old) {
      instances = spec.told_notes notes.now (machine_of parts.old).instances;
    } }
    ensures axes { parts.new.axes ≡ parts.old.axes }
    ensures groups { parts.new.groups ≡ parts.old.groups }
    ensures pool { parts.new.pool ≡ parts.old.pool }
{
    finish_all(notes.as_slice(), parts.instances.as_mut_slice());
}

/// Reports the instances of the machine the same, and leaves no notes.
pub fn tell_and_clear(notes: &mut Notes, parts: &mut Parts)
    ensures told { machine_of parts.new ≡ record (machine_of parts.old) {
      instances = spec.told_notes notes.old (machine_of parts.old).instances;
    } }
    ensures none { notes.new ≡ [] }
{
    if !notes.as_slice().is_empty() {
        tell(notes, parts);
        *notes = Notes::new();
    }
}

// Shows an instance, where it is there, that its command is active, and what that has reached.
#[tactic(auto, using(crate::proofs::Lists::not_set))]
fn show(owner: u16, reached: bool, instances: &mut [Instance])
    ensures shown { instances.new ≡ spec.shown_at owner reached instances.old }
    ensures long { length instances.new ≡ length instances.old }
{
    if (owner as usize) < instances.len() {
        let instance = &mut instances[owner as usize];
        instance.on_start(true);
        instance.set_reached(reached);
    }
}

/// Shows the owner of an active command that it is active, and what that has reached.
pub fn show_active(owner: Option<u16>, reached: bool, instances: &mut [Instance])
    ensures shown { instances.new ≡ spec.shown_active owner reached instances.old }
    ensures long { length instances.new ≡ length instances.old }
{
    if let Some(owner) = owner {
        show(owner, reached, instances);
    }
}

/// Whether the instance that holds an axis or a group in stopping is still called with Execute
/// true.
pub fn is_held(instances: &[Instance], hold: Option<u16>) -> bool
    ensures { result ≡ spec.is_held instances.now hold }
{
    match hold {
        None => false,
        Some(owner) => match instances.get(owner as usize) {
            None => false,
            Some(instance) => instance.execute(),
        },
    }
}
