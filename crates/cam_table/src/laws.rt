// Laws of cam tables: each is the contract of a function that does nothing.

ghost use Rattle.std.specs.Prelude.{◌≡◌, ◌↔◌, ℤ, List, IsTrue};
ghost use Rattle.cam_table.specs.declared.fault.CamFault.{CamFault};
ghost use Rattle.cam_table.specs.CamTable.{IsCamTable, is_cam_table};
ghost use Rattle.cam_table.specs.CamFault.{IsFault};

/// Points have at most one fault, and a cam table has none: which fault is reported is never a
/// choice.
pub fn points_have_one_fault()
    ensures one { (points : List (ℤ × ℤ)) (fault other : CamFault) →
        IsFault points fault → IsFault points other → fault ≡ other }
    ensures none { (points : List (ℤ × ℤ)) (fault : CamFault) →
        IsCamTable points → IsFault points fault → ⊥ }
{}

/// The test distinguishes cam tables from other points.
pub fn cam_tables_are_told()
    ensures { (points : List (ℤ × ℤ)) → IsTrue (is_cam_table points) ↔ IsCamTable points }
{}
