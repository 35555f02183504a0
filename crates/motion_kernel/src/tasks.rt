// Which tasks live, and which of them are quiet.

ghost use Rattle.std.specs.Prelude.{◌≡◌, ◌<◌, ◌≤◌, length, map, replicate, slice_set, take};
ghost use Rattle.std.specs.List.{filter};
ghost use Rattle.motion_kernel.specs.Marked as spec;
ghost use Rattle.motion_kernel.specs.declared.tasks.TaskMark.TheVariants.{Ended, Quiet};

use motion_history::MOST_TASKS;

/// What is known of a task.
#[derive(Clone, Copy, Debug, PartialEq, Eq)]
pub enum TaskMark {
    /// It lives, and has made no entry since the last cycle.
    Quiet,
    /// It lives, and has made one.
    Heard,
    /// It has ended.
    Ended,
}

impl TaskMark {
    // The mark of a task that makes an entry.
    fn heard(self) -> TaskMark
        ensures { result ≡ spec.heard self }
    {
        match self {
            TaskMark::Ended => TaskMark::Ended,
            TaskMark::Heard | TaskMark::Quiet => TaskMark::Heard,
        }
    }

    // Whether a task of this mark lives.
    fn is_live(self) -> bool
        ensures { result ≡ spec.is_live self }
    {
        !matches!(self, TaskMark::Ended)
    }

    // Whether it is quiet.
    fn is_quiet(self) -> bool
        ensures { result ≡ spec.is_still self }
    {
        matches!(self, TaskMark::Quiet)
    }

    // The mark of a task after a cycle.
    fn quieten(&mut self)
        ensures { self.new ≡ spec.quieted self.old }
    {
        *self = match *self {
            TaskMark::Heard | TaskMark::Quiet => TaskMark::Quiet,
            TaskMark::Ended => *self,
        };
    }
}

/// The marks of all tasks, by their numbers.
#[derive(Clone, Copy)]
pub struct TaskMarks {
    pub marks: [TaskMark; MOST_TASKS],
}

impl TaskMarks {
    /// No task has made an entry.
    pub fn open() -> TaskMarks
        ensures { result.marks ≡ replicate 8 Quiet }
    {
        TaskMarks {
            marks: [TaskMark::Quiet; MOST_TASKS],
        }
    }

    /// A task makes an entry.
    pub fn hear(&mut self, task: u8)
        requires { task < 8 }
        ensures { self.new.marks ≡ slice_set self.old.marks task (spec.heard
            (spec.mark_at self.old.marks task)) }
    {
        self.marks[task as usize] = self.marks[task as usize].heard();
    }

    /// A task ends.
    pub fn end(&mut self, task: u8)
        requires { task < 8 }
        ensures { self.new.marks ≡ slice_set self.old.marks task Ended }
    {
        self.marks[task as usize] = TaskMark::Ended;
    }

    /// A cycle is made: no task has made an entry since.
    pub fn quiet_all(&mut self)
        ensures { self.new.marks ≡ map spec.quieted self.old.marks }
    {
        quiet(&mut self.marks);
    }

    /// How many of the first tasks live.
    pub fn live(&self, count: usize) -> u8
        requires { count ≤ 8 }
        ensures { result ≡ length (filter spec.is_live (take count self.now.marks)) }
    {
        let marks = &self.marks[..count];
        marks.iter().filter(|mark| mark.is_live()).count() as u8
    }

    /// How many of the first tasks are quiet.
    pub fn quiet(&self, count: usize) -> u8
        requires { count ≤ 8 }
        ensures { result ≡ length (filter spec.is_still (take count self.now.marks)) }
    {
        let marks = &self.marks[..count];
        marks.iter().filter(|mark| mark.is_quiet()).count() as u8
    }
}

// The marks after a cycle.
#[tactic(auto, using(std::proofs::lemmas::List::Edits::map_over_more))]
fn quiet(marks: &mut [TaskMark])
    ensures { marks.new ≡ map spec.quieted marks.old }
{
    for mark in marks.iter_mut() {
        mark.quieten();
    }
}
