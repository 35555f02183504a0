// Laws of drives: each is the contract of a function that does nothing.

ghost use Rattle.std.specs.Prelude.{◌≡◌, ℕ, ◌≤◌, Bool, true, false, List, length, Contains, ◌⊎◌, Some};
ghost use Rattle.cia402_machine.specs.Statusword.{state_of_word, status_of_state};
ghost use Rattle.cia402_machine.specs.Controlword.{command_of_words, has_reset_bit};
ghost use Rattle.cia402_machine.specs.Transitions.{Cause, IsTransition, is_faulty};
ghost use Rattle.cia402_machine.specs.Steps.{drive_step_of, causes_of};
ghost use Rattle.cia402_machine.specs.Commanded.{Commanded, Wishes, commanded, commanded_on};
ghost use Rattle.plc_types.specs.declared.drive.DriveState.{DriveState};
ghost use Rattle.plc_types.specs.declared.drive.DriveState.TheVariants.{SwitchOnDisabled, OperationEnabled, FaultReactionActive, Fault};

/// The statusword of a state is read back as that state.
pub fn statuswords_are_read_back()
    ensures { (state : DriveState) → state_of_word (status_of_state state) ≡ Some state }
{}

/// A step leaves the state or makes one transition, for a cause that acts in it.
pub fn steps_are_single_transitions()
    ensures { (state : DriveState) (last controlword : ℕ) (fault : Bool) →
        (drive_step_of state last controlword fault ≡ state) ⊎ ((cause : Cause) ×
        Contains (causes_of fault (command_of_words last controlword)) cause ×
        IsTransition state cause (drive_step_of state last controlword fault)) }
{}

/// A fault leads to the fault reaction whatever the controlword says. In a fault state it has no
/// effect: the reaction ends in Fault all the same, and a fault reset leaves Fault all the same.
pub fn faults_come_first()
    ensures reaction { (state : DriveState) (last controlword : ℕ) → is_faulty state ≡ false →
        drive_step_of state last controlword true ≡ FaultReactionActive }
    ensures ended { (last controlword : ℕ) (fault : Bool) →
        drive_step_of FaultReactionActive last controlword fault ≡ Fault }
    ensures ignored { (last controlword : ℕ) (fault : Bool) →
        drive_step_of Fault last controlword fault ≡ drive_step_of Fault last controlword false }
{}

/// A drive that is not in a fault state and is given the kernel's controlwords, with power on and
/// no fault, is in Operation enabled after four steps, and stays there.
pub fn commanded_drives_become_enabled()
    ensures { (drive : Commanded) (resets : List Bool) → is_faulty drive.state ≡ false →
        4 ≤ length resets → (commanded_on resets drive).state ≡ OperationEnabled }
{}

/// A drive in Fault that is given the kernel's controlwords, with a Reset pending, is in Switch on
/// disabled after one step where bit 7 of its last controlword was zero, else after two: the word
/// between has bit 7 zero. Faults make no difference.
pub fn fault_resets_leave_fault()
    ensures at_once { (drive : Commanded) (wishes : Wishes) → drive.state ≡ Fault →
        wishes.reset ≡ true → has_reset_bit drive.last ≡ false →
        (commanded wishes drive).state ≡ SwitchOnDisabled }
    ensures dropped { (drive : Commanded) (wishes : Wishes) → drive.state ≡ Fault →
        has_reset_bit drive.last ≡ true →
        commanded wishes drive ≡ record { state = Fault; last = 0 } }
    ensures after_two { (drive : Commanded) (first second : Wishes) → drive.state ≡ Fault →
        has_reset_bit drive.last ≡ true → second.reset ≡ true →
        (commanded second (commanded first drive)).state ≡ SwitchOnDisabled }
{}
