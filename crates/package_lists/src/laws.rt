//! What holds of lists of packages.
ghost use Rattle.package_lists.specs.ListLaws.{ListsHaveNoFault, OnlyOneList};

/// A text is at most one list of packages, and a list has no bad line.
pub fn lists_and_faults()
    ensures one_list { OnlyOneList }
    ensures no_fault { ListsHaveNoFault }
{}
