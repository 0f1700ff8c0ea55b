//! The kinds of action.
ghost use Rattle.std.specs.Prelude.{◌≡◌};
ghost use Rattle.sh_step.specs.Kinds.{kind_name};

/// The 19 kinds of action, by their names in scripts and replies.
#[derive(Clone, Copy, Debug, PartialEq, Eq)]
pub enum ActionKind {
    /// Enters a slot.
    Enter,
    /// Marks a slot.
    Mark,
    /// Gives a count back.
    Drop,
    /// Ends a generation.
    Finish,
    /// Stores the length or a word of a value.
    Fill,
    /// Makes a slot present.
    Publish,
    /// Reads what a hold, a look or a page is about.
    Read,
    /// Gives a page a class.
    SetClass,
    /// Takes a page's stack.
    Take,
    /// Follows a page's cursor.
    Follow,
    /// Puts a slot on its page's stack.
    Put,
    /// Stores the link of a slot that was put.
    Tie,
    /// Becomes an owner.
    Adopt,
    /// Gives a shard up.
    Leave,
    /// Arms a page.
    Arm,
    /// Puts a page on its shard's bell.
    Ring,
    /// Stores the link of a page that was put.
    RingTie,
    /// Takes a shard's bell.
    TakeBell,
    /// Follows the bell's cursor.
    FollowBell,
}

impl ActionKind {
    /// Its name.
    pub fn name(&self) -> &'static str
        ensures { result.now ≡ kind_name self.now }
    {
        match self {
            ActionKind::Enter => "Enter",
            ActionKind::Mark => "Mark",
            ActionKind::Drop => "Drop",
            ActionKind::Finish => "Finish",
            ActionKind::Fill => "Fill",
            ActionKind::Publish => "Publish",
            ActionKind::Read => "Read",
            ActionKind::SetClass => "SetClass",
            ActionKind::Take => "Take",
            ActionKind::Follow => "Follow",
            ActionKind::Put => "Put",
            ActionKind::Tie => "Tie",
            ActionKind::Adopt => "Adopt",
            ActionKind::Leave => "Leave",
            ActionKind::Arm => "Arm",
            ActionKind::Ring => "Ring",
            ActionKind::RingTie => "RingTie",
            ActionKind::TakeBell => "TakeBell",
            ActionKind::FollowBell => "FollowBell",
        }
    }
}
