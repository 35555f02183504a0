// A straight line as a path.

ghost use Rattle.std.specs.Prelude.{◌≡◌, ℕ, ℤ, pos, unsigned_abs, List};

use crate::line::LinePath;
use crate::part::place_at;
use crate::path::Path;

impl Path for LinePath {
    ghost use Rattle.plc_types.specs.declared.limits.Limits.{Limits};
    ghost use Rattle.linear_path.specs.Line.{coordinate_of, longest_way_of, place_between, path_limits_of};

    ghost length_of = { λ line. pos (longest_way_of line.count line.starts line.targets) };

    ghost count_of = { λ line. line.count };

    ghost start_of = { λ line axis. coordinate_of line.starts axis };

    ghost target_of = { λ line axis. coordinate_of line.targets axis };

    ghost place_of = { λ line axis s. place_between
        (coordinate_of line.starts axis) (coordinate_of line.targets axis)
        (longest_way_of line.count line.starts line.targets) (unsigned_abs s) };

    ghost limits_of = { λ line limits. path_limits_of line.count line.starts line.targets limits };

    fn length(&self) -> i64 {
        self.longest_way() as i64
    }

    fn axes(&self) -> u8 {
        self.count
    }

    fn place(&self, axis: u8, s: i64) -> i64 {
        place_at(
            self.starts[axis as usize],
            self.targets[axis as usize],
            self.longest_way(),
            s as u64,
        )
    }

    fn leads_its_axes() {}
}
