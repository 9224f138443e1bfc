//! What holds of a node's steps, and of all that nodes encode.
ghost use Rattle.node.specs.Laws.{OnlyRunningNodesTake, StepsAreTheMembers};
ghost use Rattle.node.specs.Ranges.{AnswersCanBeWritten, WhatIsRestoredCanBeWritten};

/// What a member notes and sends can be encoded, and so can what such notes restore.
pub fn what_is_said_can_be_written()
    ensures answers { AnswersCanBeWritten }
    ensures restored { WhatIsRestoredCanBeWritten }
{}

/// A node that takes a step is not stopped.
pub fn only_running_nodes_take()
    ensures { OnlyRunningNodesTake }
{}

/// A step leaves the node's member in the state that the member's own answer leads to.
pub fn steps_are_the_members()
    ensures { StepsAreTheMembers }
{}
