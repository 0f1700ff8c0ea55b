//! Actions, with what each is about.
ghost use Rattle.std.specs.Prelude.{◌≡◌};
ghost use Rattle.sh_step.specs.Kinds.{kind_of_action};

use crate::kind::ActionKind;
use sh_value::Value;

/// A page as an action names it: any two numbers. The action is not enabled if the shape has no such page.
#[derive(Clone, Copy, Debug, PartialEq, Eq)]
pub struct PageName {
    /// The shard.
    pub shard: u64,
    /// The page of the shard.
    pub page: u64,
}

/// A slot as an action names it: any three numbers. The action is not enabled if the shape has no such slot.
#[derive(Clone, Copy, Debug, PartialEq, Eq)]
pub struct SlotName {
    /// The shard.
    pub shard: u64,
    /// The page of the shard.
    pub page: u64,
    /// The slot of the page.
    pub slot: u64,
}

/// What a pass can do in one step. Each form is one row of the table of actions.
#[derive(Drop, Debug, PartialEq, Eq)]
pub enum Action {
    /// Enters the slot of a key, to get it.
    EnterGet(u64),
    /// Enters the slot of a key, to remove it.
    EnterRemove(u64),
    /// Marks the slot that it entered to remove. If several passes mark it, the first mark decides.
    Mark,
    /// Gives back the count on the slot that it is leaving.
    Drop,
    /// Gives back the count of a hold on a key.
    DropHold(u64),
    /// Loads what comes next of the value whose generation it is to end: the class of its page, its length, or a word.
    ReadEnding,
    /// Ends the generation of a slot that is marked and has no count.
    Finish,
    /// Begins to fill a slot of its own: the length is stored.
    FillSlot(SlotName, Value),
    /// Stores the next word of the value.
    Fill,
    /// Makes the filled slot present.
    Publish,
    /// Reads the class of the page of a key that it holds.
    ReadClass(u64),
    /// Reads the length of the value of a key that it holds.
    ReadLength(u64),
    /// Reads a word, from 0, of the value of a key that it holds, once class and length are read.
    ReadWord(u64, u64),
    /// Loads the state of a slot. What it finds is noted nowhere.
    Peek(SlotName),
    /// Begins to look at a key: loads the state of its slot. It has no hold from it.
    Look(u64),
    /// Loads what comes next of the key that it looks at: the class of its page, the length of its value, or a word.
    LookOn,
    /// Loads the state again, once all is read. If the key's value is still there, what was read is that value.
    LookAgain,
    /// Reads the class of a page of its own.
    ReadPage(PageName),
    /// Gives a page of its own, which is blank or wholly its own, a class.
    SetClass(PageName, u64),
    /// Takes what was put on a page of its own.
    Take(PageName),
    /// Reads the link of the slot at the page's cursor.
    Follow(PageName),
    /// Puts the empty slot of another's shard that is in its hand.
    Put,
    /// Puts an empty slot of its own.
    PutSlot(SlotName),
    /// Stores the link of the slot that it put.
    Tie,
    /// Becomes the owner of a shard.
    Adopt(u64),
    /// Gives its shard up.
    Leave,
    /// Asks for a ring at the next put on a page of its own, and takes what was put there.
    Arm(PageName),
    /// Puts the page on its shard's bell.
    Ring,
    /// Stores the link of the page that it put.
    RingTie,
    /// Takes what was put on its shard's bell.
    TakeBell,
    /// Reads the link of the page at the bell's cursor.
    FollowBell,
}

/// An action by a pass.
#[derive(Drop, Debug, PartialEq, Eq)]
pub struct Event {
    /// The number of the pass that does it.
    pub pass: u32,
    /// What is done.
    pub action: Action,
}

impl Action {
    /// The action's kind.
    pub fn kind(&self) -> ActionKind
        ensures { result ≡ kind_of_action self.now }
    {
        match self {
            Action::EnterGet(_) | Action::EnterRemove(_) => ActionKind::Enter,
            Action::Mark => ActionKind::Mark,
            Action::Drop | Action::DropHold(_) => ActionKind::Drop,
            Action::Finish => ActionKind::Finish,
            Action::FillSlot(_, _) | Action::Fill => ActionKind::Fill,
            Action::Publish => ActionKind::Publish,
            Action::ReadClass(_)
            | Action::ReadLength(_)
            | Action::ReadWord(_, _)
            | Action::ReadEnding
            | Action::Peek(_)
            | Action::Look(_)
            | Action::LookOn
            | Action::LookAgain
            | Action::ReadPage(_) => ActionKind::Read,
            Action::SetClass(_, _) => ActionKind::SetClass,
            Action::Take(_) => ActionKind::Take,
            Action::Follow(_) => ActionKind::Follow,
            Action::Put | Action::PutSlot(_) => ActionKind::Put,
            Action::Tie => ActionKind::Tie,
            Action::Adopt(_) => ActionKind::Adopt,
            Action::Leave => ActionKind::Leave,
            Action::Arm(_) => ActionKind::Arm,
            Action::Ring => ActionKind::Ring,
            Action::RingTie => ActionKind::RingTie,
            Action::TakeBell => ActionKind::TakeBell,
            Action::FollowBell => ActionKind::FollowBell,
        }
    }
}
