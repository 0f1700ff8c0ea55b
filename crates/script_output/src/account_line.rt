//! The text of account lines.
ghost use Rattle.std.specs.Prelude.{◌≡◌, ◌++◌, ◌<◌, List, OnOk, decimal};
ghost use Rattle.sh_shape.specs.Shape.{IsShape};
ghost use Rattle.sh_shape.specs.Places.{page_number, pages_of};
ghost use Rattle.sh_step.specs.declared.action.Event.{Event};
ghost use Rattle.sh_step.specs.Plans.{plan_of};
ghost use Rattle.sh_accounts.specs.Accounts.{ShapeHasPage};
ghost use Rattle.script_output.specs.AccountLines.{page_name, used_text, empty_text, account_line, page_text};
ghost use Rattle.script_output.specs.AccountLines.{shard_text};
ghost use Rattle.script_output.specs.AccountLines.{accounts_text, accounts_after, Later, ShardSaid, ShardsSaid};

use crate::numbers::push_number;
use crate::pages::Pages;
use sh_core::Accounts;
use std::alloc::AllocError;

// Adds a name between spaces and its number.
fn push_count(out: &mut Vec<u8>, name: &[u8], count: u32) -> Result<(), AllocError>
    ensures { OnOk result (out.new.items ≡ out.old.items ++ (name.now ++ decimal count)) }
{
    out.extend_from_slice(name)?;
    push_number(out, count as u64)
}

fn push_name(out: &mut Vec<u8>, shard: u32, page: u32) -> Result<(), AllocError>
    ensures { OnOk result (out.new.items ≡ out.old.items ++ page_name shard page) }
{
    push_count(out, b"page ", shard)?;
    push_count(out, b".", page)
}

fn push_used(out: &mut Vec<u8>, accounts: &Accounts) -> Result<(), AllocError>
    ensures { OnOk result (out.new.items ≡ out.old.items ++ used_text accounts.now) }
{
    push_count(out, b" live ", accounts.live)?;
    push_count(out, b" marked ", accounts.marked)?;
    push_count(out, b" retired ", accounts.retired)
}

fn push_empty(out: &mut Vec<u8>, accounts: &Accounts) -> Result<(), AllocError>
    ensures { OnOk result (out.new.items ≡ out.old.items ++ empty_text accounts.now) }
{
    push_count(out, b" mine ", accounts.mine)?;
    push_count(out, b" hand ", accounts.hand)?;
    push_count(out, b" queued ", accounts.queued)
}

fn push_account(
    out: &mut Vec<u8>,
    shard: u32,
    page: u32,
    class: u32,
    accounts: &Accounts,
) -> Result<(), AllocError>
    ensures { OnOk result (out.new.items ≡ out.old.items ++ account_line shard page class accounts.now) }
{
    push_name(out, shard, page)?;
    push_count(out, b" class ", class)?;
    push_used(out, accounts)?;
    push_empty(out, accounts)?;
    out.extend_from_slice(b"\n")
}

// Adds the line of a page, if it has a class.
fn push_page<P: Pages>(
    out: &mut Vec<u8>,
    pages: &mut P,
    shard: u32,
    number: u32,
) -> Result<(), AllocError>
    requires there { ShapeHasPage (P.numbers pages.old) shard number }
    ensures later { Later P.fixed P.numbers P.leads P.says pages.old pages.new }
    ensures reached { (events : List Event) × P.leads pages.new events }
    ensures ok { (events : List Event) → P.leads pages.new events → OnOk result (out.new.items ≡ out.old.items
        ++ page_text shard number (accounts_after (plan_of P.layout (P.numbers pages.old)) events
        (page_number (P.numbers pages.old) shard number))) }
    ensures says { (events : List Event) → P.leads pages.new events
        → P.says pages.new (page_number (P.numbers pages.old) shard number)
        (accounts_after (plan_of P.layout (P.numbers pages.old)) events
        (page_number (P.numbers pages.old) shard number)) }
{
    let accounts = pages.accounts(shard, number);
    match accounts.class {
        Some(class) => push_account(out, shard, number, class, &accounts),
        None => Ok(()),
    }
}

fn push_shard<P: Pages>(out: &mut Vec<u8>, pages: &mut P, shard: u32) -> Result<(), AllocError>
    requires shape { IsShape (P.numbers pages.old) }
    requires within { shard < (P.numbers pages.old).shards }
    ensures later { Later P.fixed P.numbers P.leads P.says pages.old pages.new }
    ensures reached { OnOk result ((events : List Event) × P.leads pages.new events) }
    ensures ok { (events : List Event) → P.leads pages.new events → OnOk result (out.new.items ≡ out.old.items
        ++ shard_text (P.numbers pages.old) (accounts_after (plan_of P.layout (P.numbers pages.old)) events) shard) }
    ensures says { (events : List Event) → P.leads pages.new events → OnOk result (ShardSaid (P.says pages.new)
        (P.numbers pages.old) (accounts_after (plan_of P.layout (P.numbers pages.old)) events) shard
        (pages_of (P.numbers pages.old))) }
{
    for number in 0..pages.shape().pages() {
        push_page(out, pages, shard, number)?;
    }
    Ok(())
}

/// Adds the account lines of the pages with a class, by shards and then by pages. They are the pages' accounts after
/// any events that lead to what is known of the heap then.
pub fn push_accounts<P: Pages>(out: &mut Vec<u8>, pages: &mut P) -> Result<(), AllocError>
    requires shape { IsShape (P.numbers pages.old) }
    ensures later { Later P.fixed P.numbers P.leads P.says pages.old pages.new }
    ensures reached { OnOk result ((events : List Event) × P.leads pages.new events) }
    ensures ok { (events : List Event) → P.leads pages.new events → OnOk result (out.new.items ≡ out.old.items
        ++ accounts_text (P.numbers pages.old) (accounts_after (plan_of P.layout (P.numbers pages.old)) events)) }
    ensures says { (events : List Event) → P.leads pages.new events → OnOk result (ShardsSaid (P.says pages.new)
        (P.numbers pages.old) (accounts_after (plan_of P.layout (P.numbers pages.old)) events)
        (P.numbers pages.old).shards) }
{
    for shard in 0..pages.shape().shards() {
        push_shard(out, pages, shard)?;
    }
    Ok(())
}
