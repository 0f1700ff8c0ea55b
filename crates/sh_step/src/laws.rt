//! The laws of the table of actions, of its operations, and of what is counted over steps.
ghost use Rattle.sh_step.specs.Conditions.{GivesWhatMayBe, GivesAllThatMayBe};
ghost use Rattle.sh_step.specs.Deciding.{DecidingStepsReply};
ghost use Rattle.sh_step.specs.Ends.{StepsComeNearer, StepsGoOn};
ghost use Rattle.sh_step.specs.Footsteps.{CountsGrow};
ghost use Rattle.sh_step.specs.Moves.{StepsLookAtNoPart, StoresAreBlind};
ghost use Rattle.sh_step.specs.Operations.{RoomDoesNotWrap};

/// An action has a move, and so a row of the table, exactly if a move of it may be done, and then it is that move.
pub fn conditions_have_rows()
    ensures only { GivesWhatMayBe }
    ensures each { GivesAllThatMayBe }
{}

/// The word that a step is done on, and the operation there, depend on the move only. What a store leaves of the part,
/// and what it replies, does not depend on the word found, which a store does not return.
pub fn steps_look_at_no_part()
    ensures steps { StepsLookAtNoPart }
    ensures stores { StoresAreBlind }
{}

/// A pass that has begun something ends it in a bounded number of its own steps, which its hand says, whatever the
/// others do. Each step leaves fewer, whatever word it finds. There is a next step as long as a key in its hand names a
/// slot. A removal has 7 steps, and 18 more if it reads a value of 16 words that ends. A filling has one more than
/// words are left.
pub fn hands_end()
    ensures nearer { StepsComeNearer }
    ensures goes_on { StepsGoOn }
{}

/// The step that finds the word by which a call is decided replies, and no other step does. An entry to get always
/// replies, and an entry to remove replies exactly if the word is not live. A mark, the drop of a hold and a publish
/// always reply.
pub fn deciding_steps_reply()
    ensures { DecidingStepsReply }
{}

/// A count over a list of steps grows by 1 with one more step that passes its test, and stays as it is with another.
pub fn footsteps_count()
    ensures { CountsGrow }
{}

/// If a word has room for an operation, the operation leaves what a machine does, whose words wrap around.
pub fn room_does_not_wrap()
    ensures { RoomDoesNotWrap }
{}
