// What declarations of blocks do.

ghost use Rattle.std.specs.Prelude.{◌≡◌, OnOk};
ghost use Rattle.st_check.specs.Declarations as spec;

use crate::checker::Checker;
use crate::known::{Callee, Declaration, Known, Sort};
use machine_words::{axes_of, object_at};
use motion_history::{BlockDef, ConfigFault};
use motion_numbers::OutOfMemory;
use plc_types::{BlockKind, Name};

impl Checker {
    /// What is declared is a block.
    #[tactic(auto, unfolding(crate::specs::Declarations::block))]
    pub fn block_declared(&mut self, kind: BlockKind)
        ensures { self.new ≡ spec.block kind self.old }
    {
        let fits = self.machine.blocks().len() < 256;
        let line = self.declaration.line;
        let declaration = Declaration {
            kind: Some(kind),
            ..self.declaration
        };
        self.need(fits, line, 6);
        self.declaration = declaration;
    }

    /// The axis or group on which the block acts.
    #[tactic(auto, unfolding(crate::specs::Declarations::object))]
    pub fn object(&mut self, line: u64, name: &Name) -> Result<(), OutOfMemory>
        ensures { OnOk result (self.new ≡ spec.object line name.now self.old) }
    {
        match (self.declaration.name, self.declaration.kind) {
            (Some(declared), Some(kind)) => self.acts_on(line, name, declared, kind),
            _ => Ok(()),
        }
    }

    // The block of this name and kind acts on this.
    fn acts_on(
        &mut self,
        line: u64,
        object: &Name,
        name: Name,
        kind: BlockKind,
    ) -> Result<(), OutOfMemory>
        ensures { OnOk result (self.new ≡ spec.acts_on line object.now name kind self.old) }
    {
        match object_at(&self.machine, kind, object.bytes()) {
            Some(place) => {
                let block = BlockDef {
                    name,
                    task: self.task(),
                    kind,
                    object: place,
                };
                self.with_block(line, &block)
            }
            None => {
                self.need_name(false, line);
                Ok(())
            }
        }
    }

    // The number of the task that is under way.
    fn task(&self) -> u8
        ensures { result ≡ spec.task_of self.now }
    {
        self.machine.tasks().len().saturating_sub(1) as u8
    }

    // Adds a block.
    fn with_block(&mut self, line: u64, block: &BlockDef) -> Result<(), OutOfMemory>
        ensures { OnOk result (self.new ≡ spec.with_block line block.now self.old) }
    {
        let callee = self.callee_of(block);
        self.machine_with_block(line, block)?;
        self.used.push(block.name)?;
        let known = Known {
            name: block.name,
            sort: Sort::Block(callee),
        };
        self.known.push(known)
    }

    // What may be called of a block.
    fn callee_of(&self, block: &BlockDef) -> Callee
        ensures { Sort.Block result ≡ spec.callee_of self.now block.now }
    {
        Callee {
            number: self.machine.blocks().len() as u16,
            kind: block.kind,
            axes: axes_of(&self.machine, block),
        }
    }

    // Adds a block to the machine where no rule is broken so far.
    #[tactic(auto, unfolding(crate::specs::Declarations::machine_with_block))]
    fn machine_with_block(&mut self, line: u64, block: &BlockDef) -> Result<(), OutOfMemory>
        ensures { OnOk result (self.new ≡ spec.machine_with_block line block.now self.old) }
    {
        if self.fault.is_some() {
            return Ok(());
        }
        match self
            .machine
            .block(block.name.bytes(), block.task, block.kind, block.object)
        {
            Ok(_) => Ok(()),
            Err(ConfigFault::OutOfMemory) => Err(OutOfMemory),
            Err(_) => Ok(self.break_rule(line, 6)),
        }
    }
}
