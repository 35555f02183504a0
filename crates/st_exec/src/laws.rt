// Laws of scans: each is the contract of a function that does nothing.

ghost use Rattle.std.specs.Prelude.{◌≡◌, ◌≤◌, ℕ, ℤ, Some, List, length, slice_get};
ghost use Rattle.plc_types.specs.declared.outputs.Outputs.{Outputs};
ghost use Rattle.machine_words.specs.Units.{IsCycle};
ghost use Rattle.motion_history.specs.Setup.{Setup};
ghost use Rattle.st_exec.specs.Laws.{AreCallsOf, AsksInOrder};
ghost use Rattle.st_exec.specs.Scan.{HasAll, scan_of};
ghost use Rattle.st_tree.specs.Fitting.{IsProgramOf};
ghost use Rattle.st_tree.specs.declared.program.Task.{Task};
ghost use Rattle.st_tree.specs.declared.statement.Stmt.{Stmt};

/// The calls that a scan makes for some replies are the first of those that it makes for more; a
/// scan that waits has made one call more than it got replies.
pub fn scans_ask_in_order()
    ensures { (us : ℕ) → (body : List Stmt) → AsksInOrder us body }
{}

/// No operand is missing in the scan of a tree, whatever its variables and replies.
pub fn scans_have_their_operands()
    ensures { (us : ℕ) → (body : List Stmt) → (vars : List ℤ) → (last replies : List Outputs) →
        HasAll (scan_of us body vars last replies) }
{}

/// Each call that a scan of a program's task makes, whatever its variables and replies, is one of
/// the machine of the program, where the machine has an axis; and its block is one of the task.
pub fn scans_call_the_machine()
    ensures { (s : Setup) → (tasks : List Task) → (us n : ℕ) → (task : Task) → IsCycle us →
        1 ≤ length s.axes → IsProgramOf s tasks → slice_get tasks n ≡ Some task →
        (vars : List ℤ) → (last replies : List Outputs) →
        AreCallsOf s n (scan_of us task.body.items vars last replies) }
{}
