// Laws of a machine's words: each is the contract of a function that does nothing.

ghost use Rattle.std.specs.Prelude.{◌≡◌};
ghost use Rattle.machine_words.specs.Fit.{InputsAreFit};

use cam_table::MOST_POINTS;
use fixed_units::reads_what_is_spelled;
use line_text::numbers_are_small;
use motion_history::{
    MOST_AXES, MOST_BLOCKS, MOST_CYCLES, MOST_ENTRIES, MOST_FAULTS, MOST_GROUPS, MOST_LAG,
    MOST_MEMBERS, MOST_TABLES, MOST_TASKS,
};
use motion_numbers::MOST_INCREMENT;

/// What words give the inputs of a call fits its block.
pub fn inputs_are_fit()
    ensures { InputsAreFit }
{
    numbers_are_small();
    reads_what_is_spelled();
}

/// The sizes of machines in numbers: how many items of each kind one may have, how long its history
/// is, how far a drive may lag after, how many points a cam table has and how large an increment
/// is.
pub fn sizes_of_machines()
    ensures axes { MOST_AXES ≡ 16 }
    ensures groups { MOST_GROUPS ≡ 4 }
    ensures members { MOST_MEMBERS ≡ 6 }
    ensures tables { MOST_TABLES ≡ 16 }
    ensures tasks { MOST_TASKS ≡ 8 }
    ensures blocks { MOST_BLOCKS ≡ 256 }
    ensures cycles { MOST_CYCLES ≡ 200000 }
    ensures entries { MOST_ENTRIES ≡ 1000000 }
    ensures lag { MOST_LAG ≡ 64 }
    ensures faults { MOST_FAULTS ≡ 1000 }
    ensures points { MOST_POINTS ≡ 4096 }
    ensures increment { MOST_INCREMENT ≡ 1000000000 }
{}
