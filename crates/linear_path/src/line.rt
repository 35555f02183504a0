// A straight line of up to six axes.

ghost use Rattle.std.specs.Prelude.{◌≡◌, ◌<◌, ◌≤◌};
ghost use Rattle.linear_path.specs.Line.{AreInRange};

use motion_numbers::MOST_WAY;

/// A straight line of 2 to 6 axes, from their starts to their targets, in internal units within
/// 10^15 of 0. Each place of the path is one unit of the longest way.
#[derive(Clone, Copy, Debug, PartialEq, Eq)]
pub struct LinePath {
    /// How many axes the line has, 2 to 6.
    pub count: u8,
    /// Where the axes start; beyond `count` they are of no account.
    pub starts: [i64; 6],
    /// Where the axes end; beyond `count` they are of no account.
    pub targets: [i64; 6],
    pub ghost two_or_more: { 2 ≤ count },
    pub ghost six_or_fewer: { count ≤ 6 },
    pub ghost starts_in_range: { AreInRange starts },
    pub ghost targets_in_range: { AreInRange targets },
}

impl LinePath {
    ghost use Rattle.linear_path.specs.Line.{way_of, longest_way_of};

    // How far an axis goes, as a size.
    pub(crate) fn way(&self, axis: u8) -> u64
        requires { axis < 6 }
        ensures value { result ≡ way_of self.now.starts self.now.targets axis }
        ensures small { result ≤ MOST_WAY }
    {
        self.targets[axis as usize].abs_diff(self.starts[axis as usize])
    }

    // The longest way of an axis: the length of the path.
    pub(crate) fn longest_way(&self) -> u64
        ensures value { result ≡ longest_way_of self.now.count self.now.starts self.now.targets }
        ensures small { result ≤ MOST_WAY }
    {
        let mut longest = 0;
        for axis in 0..self.count {
            longest = self.way(axis).max(longest);
        }
        longest
    }
}
