// Laws of gears and cams, for all masters and tables: the clauses say them, and nothing runs.

ghost use Rattle.std.specs.Prelude.{◌≡◌, ℕ, ◌+◌, ◌≤◌, ℤ, pos, ◌+ℤ◌, ◌-ℤ◌, ◌*ℤ◌, ◌≤ℤ◌, ◌<ℤ◌, List, length, All, slice_get, ◌-◌};
ghost use Rattle.cam_table.specs.CamTable.{IsCamTable};
ghost use Rattle.follow_plan.specs.Floor.{floor_of};
ghost use Rattle.follow_plan.specs.Gear.{gear_difference_of, travel_of, end_of};
ghost use Rattle.follow_plan.specs.Cam.{position_between, cam_position_of};

/// A gear keeps its ratio: what is rounded down lies less than one unit below the exact quotient;
/// a master that stands asks for no step; and over any way of the master, however many cycles it
/// takes, the differences add up to the difference of the whole way.
pub fn gears_keep_their_ratio()
    ensures rounded_down { (n d : ℤ) → pos 1 ≤ℤ d →
        ((d *ℤ floor_of n d) ≤ℤ n) × (n <ℤ (d *ℤ floor_of n d +ℤ d)) }
    ensures rest { (m n d : ℤ) → gear_difference_of m m n d ≡ pos 0 }
    ensures no_drift { (m n d : ℤ) (way : List ℤ) →
        travel_of n d m way ≡ gear_difference_of m (end_of m way) n d }
{}

/// A cam's position lies on the line between the two points between which the master lies, and at
/// a point it is that point's; before the first and after the last point it is theirs. So it
/// never leaves the range of the table's positions.
pub fn cam_positions_lie_between_points()
    ensures before { (points : List (ℤ × ℤ)) (first : ℤ × ℤ) (master : ℤ) → IsCamTable points →
        slice_get points 0 ≡ Some first → master ≤ℤ first.0 →
        cam_position_of points master ≡ first.1 }
    ensures between { (points : List (ℤ × ℤ)) (at : ℕ) (p q : ℤ × ℤ) (master : ℤ) →
        IsCamTable points → slice_get points at ≡ Some p → slice_get points (at + 1) ≡ Some q →
        p.0 ≤ℤ master → master <ℤ q.0 →
        cam_position_of points master ≡ position_between p q master }
    ensures behind { (points : List (ℤ × ℤ)) (last : ℤ × ℤ) (master : ℤ) → IsCamTable points →
        slice_get points (length points - 1) ≡ Some last → last.0 ≤ℤ master →
        cam_position_of points master ≡ last.1 }
    ensures at_points { (points : List (ℤ × ℤ)) (at : ℕ) (p : ℤ × ℤ) → IsCamTable points →
        slice_get points at ≡ Some p → cam_position_of points p.0 ≡ p.1 }
    ensures in_range { (points : List (ℤ × ℤ)) (low high master : ℤ) → IsCamTable points →
        All (λ p. (low ≤ℤ p.1) × (p.1 ≤ℤ high)) points →
        (low ≤ℤ cam_position_of points master) × (cam_position_of points master ≤ℤ high) }
{}
