// What the lines of a header say of its machine, one after another.

ghost use Rattle.std.specs.Prelude.{◌≡◌, ◌<◌, ◌++◌, ◌∷◌, [], IfOk, IfSome, OnOk, length};
ghost use Rattle.motion_kernel.specs.Seen.{placed};
ghost use Rattle.line_text.specs.Reading.{Takes};
ghost use Rattle.line_text.specs.Texts.{texts};
ghost use Rattle.segment_text.specs.reading.Lines as spec;

use crate::machine::MachineText;
use crate::reading::axis::axis_of;
use crate::reading::column::behind_number;
use crate::reading::command::wanted_of;
use crate::reading::group::group_of;
use crate::reading::instance::instance_of;
use crate::reading::rule::{NO_VALUE, OUT_OF_PLACE, TOO_MANY};
use command_pool::CommandPool;
use group_core::{GroupOnPath, LinePath};
use line_text::{LineFault, broken_unless, says};
use motion_history::{Config, OutOfMemory};
use std::alloc::Global;

impl MachineText {
    // Nothing of the machine of a configuration.
    #[tactic(auto, unfolding(crate::specs::reading::Lines::unread))]
    pub(crate) fn unread(alloc: Global, config: &Config) -> Result<MachineText, OutOfMemory>
        ensures { IfOk result (λ m. m ≡ spec.unread config.now) }
    {
        let lists = config.axes().len() + config.groups().len();
        Ok(MachineText {
            axes: Vec::new(alloc),
            groups: Vec::new(alloc),
            waiting: CommandPool::open(alloc, lists as u8)?,
            instances: Vec::new(alloc),
        })
    }

    // Takes the fields of a line.
    #[tactic(auto, unfolding(crate::specs::reading::Lines::record_meaning))]
    pub(crate) fn read_record(&mut self, config: &Config, fields: &[&[u8]]) -> Result<(), LineFault>
        ensures { Takes (spec.record_meaning config.now self.old (texts fields.now))
            self.new result }
    {
        let [kind, fields @ ..] = fields else {
            return Err(LineFault::Rule(OUT_OF_PLACE));
        };
        if says(kind, b"axis") {
            self.read_axis(config, fields)
        } else if says(kind, b"group") {
            self.read_group(config, fields)
        } else if says(kind, b"waiting") {
            self.read_waiting(fields)
        } else if says(kind, b"instance") {
            self.read_instance(config, fields)
        } else {
            Err(LineFault::Rule(OUT_OF_PLACE))
        }
    }

    // Takes the next axis.
    #[tactic(auto, unfolding(crate::specs::reading::Lines::axis_meaning))]
    fn read_axis(&mut self, config: &Config, fields: &[&[u8]]) -> Result<(), LineFault>
        ensures { Takes (spec.axis_meaning config.now self.old (texts fields.now))
            self.new result }
    {
        broken_unless(
            self.groups.is_empty() && self.instances.is_empty(),
            OUT_OF_PLACE,
        )?;
        let number = self.axes.len();
        let Some(def) = config.axes().get(number) else {
            return Err(LineFault::Rule(TOO_MANY));
        };
        let Some(fields) = behind_number(number, fields) else {
            return Err(LineFault::Rule(NO_VALUE));
        };
        let Some(axis) = axis_of(def, fields) else {
            return Err(LineFault::Rule(NO_VALUE));
        };
        let Ok(()) = self.axes.push(axis) else {
            return Err(LineFault::OutOfMemory);
        };
        Ok(())
    }

    // Takes the next group.
    #[tactic(auto, unfolding(crate::specs::reading::Lines::group_meaning))]
    fn read_group(&mut self, config: &Config, fields: &[&[u8]]) -> Result<(), LineFault>
        ensures { Takes (spec.group_meaning config.now self.old (texts fields.now))
            self.new result }
    {
        broken_unless(self.instances.is_empty(), OUT_OF_PLACE)?;
        let number = self.groups.len();
        let Some(def) = config.groups().get(number) else {
            return Err(LineFault::Rule(TOO_MANY));
        };
        let Some(fields) = behind_number(number, fields) else {
            return Err(LineFault::Rule(NO_VALUE));
        };
        let Some(group) = group_of(def, fields) else {
            return Err(LineFault::Rule(NO_VALUE));
        };
        let Ok(()) = self.push_group(group) else {
            return Err(LineFault::OutOfMemory);
        };
        Ok(())
    }

    // Puts a group after the others.
    #[tactic(auto, using(crate::proofs::TextLaws::mapped_push))]
    fn push_group(&mut self, group: GroupOnPath<LinePath>) -> Result<(), OutOfMemory>
        ensures { OnOk result (self.new ≡ record self.old {
          groups = self.old.groups ++ placed group ∷ [];
        }) }
    {
        let Ok(()) = self.groups.push(group) else {
            return Err(OutOfMemory);
        };
        Ok(())
    }

    // Takes a command that waits for the last axis or group.
    #[tactic(auto, unfolding(crate::specs::reading::Lines::waiting_meaning))]
    fn read_waiting(&mut self, fields: &[&[u8]]) -> Result<(), LineFault>
        ensures { Takes (spec.waiting_meaning self.old (texts fields.now)) self.new result }
    {
        let Some(list) = self.last_list() else {
            return Err(LineFault::Rule(OUT_OF_PLACE));
        };
        let Some(wanted) = wanted_of(fields) else {
            return Err(LineFault::Rule(NO_VALUE));
        };
        match self.waiting.push_last(list, wanted) {
            Ok(()) => Ok(()),
            Err(_) => Err(LineFault::Rule(TOO_MANY)),
        }
    }

    // The list of the last axis or group.
    fn last_list(&self) -> Option<u8>
        ensures value { result ≡ spec.last_list self.now }
        ensures there { IfSome result (λ list. list < length self.now.queues) }
    {
        let objects = self.axes.len() + self.groups.len();
        let lists = self.waiting.lists() as usize;
        if 1 <= objects && objects <= lists && self.instances.is_empty() {
            Some((objects - 1) as u8)
        } else {
            None
        }
    }

    // Takes the instance of the next block.
    #[tactic(auto, unfolding(crate::specs::reading::Lines::instance_meaning))]
    fn read_instance(&mut self, config: &Config, fields: &[&[u8]]) -> Result<(), LineFault>
        ensures { Takes (spec.instance_meaning config.now self.old (texts fields.now))
            self.new result }
    {
        let number = self.instances.len();
        let Some(def) = config.blocks().get(number) else {
            return Err(LineFault::Rule(TOO_MANY));
        };
        let Some(fields) = behind_number(number, fields) else {
            return Err(LineFault::Rule(NO_VALUE));
        };
        let Some(instance) = instance_of(def.kind, fields) else {
            return Err(LineFault::Rule(NO_VALUE));
        };
        let Ok(()) = self.instances.push(instance) else {
            return Err(LineFault::OutOfMemory);
        };
        Ok(())
    }

    // Whether each axis, each group and each instance is read.
    #[tactic(auto, unfolding(crate::specs::reading::Lines::is_whole))]
    pub(crate) fn is_whole(&self, config: &Config) -> bool
        ensures { result ≡ spec.is_whole config.now self.now }
    {
        self.axes.len() == config.axes().len()
            && self.groups.len() == config.groups().len()
            && self.instances.len() == config.blocks().len()
    }
}
