//! What the tests of faults by their texts say of lists of faults.

ghost use Rattle.std.specs.Prelude.{◌≡◌, ℕ, true};
ghost use Rattle.std.specs.List.{Contains};
ghost use Rattle.crash_model.specs.Disk.{Disk};
ghost use Rattle.crash_model.specs.Checker.{Demands, faults_under};
ghost use Rattle.crash_model.specs.declared.fault.Fault.{Fault};
ghost use Rattle.known_bytes.specs.SetFaults.{set_has_fault};
ghost use Rattle.known_bytes.specs.Texts.{HasBytes};

/// A set, which leaves a disk of bytes, has a fault exactly if the list of its faults has it.
pub fn a_set_has_the_faults_of_its_list()
    ensures listed { (demands : Demands) (set : ℕ) (d : Disk) (fault : Fault)
        → set_has_fault demands set d fault ≡ true → Contains (faults_under demands set d) fault }
    ensures all { (demands : Demands) (set : ℕ) (d : Disk) (fault : Fault)
        → HasBytes d → Contains (faults_under demands set d) fault → set_has_fault demands set d fault ≡ true }
{}
