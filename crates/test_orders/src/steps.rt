//! The steps of calls. Each call is listed by the longest way that it can take. A pass skips the actions whose
//! condition does not hold of its own part, so it takes the way of its hand, as a caller does.
use sh_step::{Action, Event, PageName, SlotName};
use sh_value::Value;
use std::alloc::Global;
use std::test::Fail;

/// The first page of the first shard.
pub const PAGE: PageName = PageName { shard: 0, page: 0 };

/// The greatest class, of three slots a page.
pub const WIDEST: u64 = 7;

/// A slot of that page.
pub fn slot(number: u64) -> SlotName {
    SlotName {
        shard: PAGE.shard,
        page: PAGE.page,
        slot: number,
    }
}

// Adds an action of a pass, and returns whether there was memory for it.
fn push(events: &mut Vec<Event>, pass: u32, action: Action) -> bool {
    events.push(Event { pass, action }).is_ok()
}

// Adds the insert of a word, and returns whether there was memory for it.
fn push_insert(events: &mut Vec<Event>, pass: u32, slot: SlotName, word: u64) -> bool {
    let value = Value::from(word);
    push(events, pass, Action::FillSlot(slot, value))
        && push(events, pass, Action::Fill)
        && push(events, pass, Action::Publish)
}

/// The steps of passes, each pass in the order of the list.
#[derive(Drop)]
pub struct Steps {
    events: Vec<Event>,
    // Whether memory was refused for one of them.
    refused: bool,
}

impl Steps {
    /// No steps.
    pub fn new(alloc: Global) -> Steps {
        Steps {
            events: Vec::new(alloc),
            refused: false,
        }
    }

    /// These steps, or a failure if memory was refused for one of them.
    pub fn complete(self) -> Result<Steps, Fail> {
        if self.refused {
            return Err(Fail::new("memory was refused for a step"));
        }
        Ok(self)
    }

    /// The events.
    pub fn events(&self) -> &[Event] {
        &self.events
    }

    /// Adds that the pass does the action.
    pub fn does(mut self, pass: u32, action: Action) -> Steps {
        if !push(&mut self.events, pass, action) {
            self.refused = true;
        }
        self
    }

    /// Adds that the pass removes the key, up to the step that gives it the empty slot.
    pub fn empties(self, pass: u32, key: u64) -> Steps {
        self.does(pass, Action::EnterRemove(key))
            .does(pass, Action::Mark)
            .does(pass, Action::Drop)
            .does(pass, Action::Finish)
    }

    /// Adds that the pass puts the empty slot that it has, if it is another's, on its page, and rings if it must.
    pub fn gives_back(self, pass: u32) -> Steps {
        self.does(pass, Action::Put)
            .does(pass, Action::Tie)
            .does(pass, Action::Ring)
            .does(pass, Action::RingTie)
    }

    /// Adds that the pass removes the key.
    pub fn removes(self, pass: u32, key: u64) -> Steps {
        self.empties(pass, key).gives_back(pass)
    }

    /// Adds that the pass gets the key.
    pub fn gets(self, pass: u32, key: u64) -> Steps {
        self.does(pass, Action::EnterGet(key))
            .does(pass, Action::Drop)
            .does(pass, Action::Finish)
            .gives_back(pass)
    }

    /// Adds that the pass releases a hold on the key.
    pub fn releases(self, pass: u32, key: u64) -> Steps {
        self.does(pass, Action::DropHold(key))
            .does(pass, Action::Finish)
            .gives_back(pass)
    }

    /// Adds that the pass reads the class, the length and the one word of the value of a key that it holds.
    pub fn reads(self, pass: u32, key: u64) -> Steps {
        self.does(pass, Action::ReadClass(key))
            .does(pass, Action::ReadLength(key))
            .does(pass, Action::ReadWord(key, 0))
    }

    /// Adds that the pass looks at the key, whose value has one word.
    pub fn looks(self, pass: u32, key: u64) -> Steps {
        self.does(pass, Action::Look(key))
            .does(pass, Action::LookOn)
            .does(pass, Action::LookOn)
            .does(pass, Action::LookOn)
            .does(pass, Action::LookAgain)
    }

    /// Adds that the pass inserts the word in a slot of its own.
    pub fn inserts(mut self, pass: u32, slot: SlotName, word: u64) -> Steps {
        if !push_insert(&mut self.events, pass, slot, word) {
            self.refused = true;
        }
        self
    }

    /// Adds that the pass inserts `values` values of one word in the first slots of the first page, which are its own.
    pub fn inserts_first(mut self, pass: u32, values: u64) -> Steps {
        for number in 0..values {
            if !push_insert(&mut self.events, pass, slot(number), number) {
                self.refused = true;
            }
        }
        self
    }

    /// Adds that the pass takes what was put on the page, and follows it at most `times` times.
    pub fn collects(self, pass: u32, page: PageName, times: u32) -> Steps {
        self.does(pass, Action::Take(page))
            .follows(pass, page, times)
    }

    /// Adds that the pass arms the page, and follows what it took at most `times` times.
    pub fn arms(self, pass: u32, page: PageName, times: u32) -> Steps {
        self.does(pass, Action::Arm(page))
            .follows(pass, page, times)
    }

    // Adds that the pass follows the page's cursor, at most `times` times.
    fn follows(mut self, pass: u32, page: PageName, times: u32) -> Steps {
        for _ in 0..times {
            if !push(&mut self.events, pass, Action::Follow(page)) {
                self.refused = true;
            }
        }
        self
    }

    /// Adds that the pass takes the bell, and follows it at most `times` times.
    pub fn answers(self, pass: u32, times: u32) -> Steps {
        let mut steps = self.does(pass, Action::TakeBell);
        for _ in 0..times {
            if !push(&mut steps.events, pass, Action::FollowBell) {
                steps.refused = true;
            }
        }
        steps
    }

    /// Adds that the pass adopts the shard, if nobody owns it, and reads its first page.
    pub fn adopts(self, pass: u32, shard: u64) -> Steps {
        self.does(pass, Action::Adopt(shard))
            .does(pass, Action::ReadPage(PageName { shard, page: 0 }))
    }

    /// Adds that the pass adopts the shard and gives its first page a class.
    pub fn opens(self, pass: u32, shard: u64, class: u64) -> Steps {
        self.adopts(pass, shard)
            .does(pass, Action::SetClass(PageName { shard, page: 0 }, class))
    }

    /// Adds that the pass puts a slot of its own on its page.
    pub fn puts(self, pass: u32, slot: SlotName) -> Steps {
        self.does(pass, Action::PutSlot(slot))
            .does(pass, Action::Tie)
    }
}
