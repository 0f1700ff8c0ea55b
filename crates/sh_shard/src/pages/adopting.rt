// Becoming the owner of a shard: the class word of each of its pages is read.
ghost use Rattle.std.specs.Prelude.{◌≡◌, ℕ, ◌+◌, None, Some, IfOk, MatchResult};
ghost use Rattle.sh_slots.specs.declared.hand.Hand.TheVariants.{Idle};
ghost use Rattle.sh_table.specs.Tales.{ViewIsValid};
ghost use Rattle.sh_pass.specs.Owners.{HasNothing, own_body, seen_page};
ghost use Rattle.sh_shard.specs.Pages.{AdoptsPages, AdoptsShard, HoldsPages, ShardLeft};
ghost use Rattle.sh_shard.specs.Steps.{StepsAtMost};

use crate::pages::PagesOn;
use sh_key::KeyLayout;
use sh_pass::KeepsHeap;
use sh_pass::owner::OwnerOn;
use sh_pass::pass::PassOn;
use sh_states::PageStates;
use sh_step::PageName;
use sh_value::Refusal;
use std::alloc::Global;

impl<L: KeyLayout, H: KeepsHeap<L>> PagesOn<L, H> {
    /// Makes the pass the owner of the shard, and reads the class word of each page in ascending order. Refused, with
    /// the pass, as `NoShard` if there is no such shard, and as `Taken` if it has an owner. Refused as `Memory` if
    /// memory for the pages is refused: then the shard is left again.
    pub(crate) fn adopt(
        alloc: Global,
        pass: PassOn<L, H>,
        shard: u64,
    ) -> Result<Self, (PassOn<L, H>, Refusal)>
        ensures adopts { AdoptsPages shard pass result }
        ensures holds { IfOk result (HoldsPages L.layout) }
        ensures steps { MatchResult result (λ pages. StepsAtMost (pages.count + 1) pass pages.owner)
            (λ r. StepsAtMost 2 pass r.0) }
    {
        let mut owner = OwnerOn::of(pass);
        if shard >= owner.shards() {
            return Err((owner.into_pass(), Refusal::NoShard));
        }
        if owner.adopt(shard) != 0 {
            return Err((owner.into_pass(), Refusal::Taken));
        }
        match Self::begin(alloc, owner, shard) {
            Ok(pages) => Ok(pages),
            Err(owner) => Err((owner.into_pass(), Refusal::Memory)),
        }
    }

    // Reads the class word of each page of the adopted shard. If memory is refused, the shard is left.
    fn begin(alloc: Global, owner: OwnerOn<L, H>, shard: u64) -> Result<Self, OwnerOn<L, H>>
        requires idle { (own_body owner).hand ≡ Idle }
        requires owned { (own_body owner).owned ≡ Some shard }
        requires bell { (own_body owner).bell_cursor ≡ None }
        requires pages { (q : ℕ) → HasNothing (seen_page owner q) }
        requires stands { ViewIsValid L.layout owner.view }
        ensures begins { MatchResult result (λ pages. AdoptsShard owner shard pages)
            (λ back. ShardLeft owner back) }
        ensures holds { IfOk result (HoldsPages L.layout) }
        ensures steps { MatchResult result (λ pages. StepsAtMost pages.count owner pages.owner)
            (λ back. StepsAtMost 1 owner back) }
    {
        let mut owner = owner;
        let count = owner.pages();
        let Ok(mut states) = PageStates::new(alloc, count) else {
            owner.leave(shard);
            return Err(owner);
        };
        for page in 0..count {
            let class_word = owner.read_page(PageName { shard, page });
            states.set_word(page, class_word);
        }
        Ok(PagesOn {
            owner,
            shard,
            rings: None,
            states,
        })
    }
}
