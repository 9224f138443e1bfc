//! Laws of noted faults.
ghost use Rattle.dpbn_node.specs.Repeats.{FaultsAreCounted};

/// Law: whatever the faults are, for each number exactly the first one is known, with the number of
/// later ones.
pub fn faults_are_counted()
    ensures { FaultsAreCounted }
{}
