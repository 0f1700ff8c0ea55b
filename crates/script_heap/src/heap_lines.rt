//! The calls of a script on a running heap: the heap is opened, the lines are run, and the passes meet at the end.
ghost use Rattle.std.specs.Prelude.{◌≡◌, ◌++◌, ℕ, Bool, List, IfOk, IfErr, OnOk, Option, Some, map, option_map};
ghost use Rattle.sh_shape.specs.Shape.{IsShape, Fits};
ghost use Rattle.sh_step.specs.declared.action.Event.{Event};
ghost use Rattle.sh_script.specs.declared.calls.CallLine.{CallLine};
ghost use Rattle.sh_table.specs.Seats.{Heap as HeapSeen};
ghost use Rattle.sh_table.specs.Whole.{IsWhole};
ghost use Rattle.script_calls.specs.Parts.{heap_terms, new_passes, tale_told};
ghost use Rattle.script_calls.specs.Finished.{LinesRan, CarrierRan};
ghost use Rattle.script_calls.specs.Running.{as_member, seen_of_caller, seen_of_member};
ghost use Rattle.script_calls.specs.Meeting.{parts_carried};
ghost use Rattle.script_heap.specs.WholeAccounts.{LeadsToWhole};
ghost use Rattle.script_heap.specs.HeapOutput.{TellsTale, IsHeapOutput};

use crate::whole_heap::WholeHeap;
use script_calls::running::pass_of;
use script_output::account_line::push_accounts;
use script_output::pages::Pages;
use sh_gather::whole;
use sh_key::KeyLayout;
use sh_member::Member;
use sh_pass::{Heap, Pass, Seats};
use sh_script::{CallLine, Fault};
use sh_shape::Shape;
use sh_value::Refusal;
use std::alloc::{AllocError, Global};

/// A pass of a running heap, with or without a shard.
pub type HeapMember<'a, L> = Member<L, &'a Heap<L>>;

/// Opens a heap of this shape, which fits the layout. Returns it with the right to its passes.
pub fn opened<L: KeyLayout>(alloc: Global, shape: Shape) -> Result<(Heap<L>, Seats<L>), Fault>
    requires { Fits L.layout shape }
    ensures shape { IfOk result (λ r. (r.0.shape ≡ shape) × (r.1 ≡ r.0)) }
    ensures memory { IfErr result (λ fault. fault ≡ Fault.Memory) }
{
    match Heap::open(alloc, shape) {
        Ok(opened) => Ok(opened),
        Err(Refusal::Memory) => Err(Fault::Memory),
        Err(_) => unreachable!(),
    }
}

fn as_members<'a, L: KeyLayout>(
    alloc: Global,
    passes: Vec<Pass<'a, L>>,
) -> Result<Vec<HeapMember<'a, L>>, AllocError>
    ensures { IfOk result (λ members. members.items ≡ map as_member passes.entry.items) }
{
    let mut members = Vec::with_capacity(alloc, passes.len())?;
    for pass in passes {
        members.push(Member::of(pass))?;
    }
    Ok(members)
}

/// All passes of the heap that these seats belong to. None owns a shard.
pub fn members<L: KeyLayout>(
    alloc: Global,
    heap: &Heap<L>,
    seats: Seats<L>,
) -> Result<Vec<HeapMember<'_, L>>, Fault>
    requires { seats ≡ heap.now }
    ensures all { IfOk result (λ members. map (λ m. seen_of_member L.layout m) members.items
        ≡ new_passes (Some heap.now) (heap_terms L.layout heap.now.shape) heap.now.shape.passes) }
    ensures memory { IfErr result (λ fault. fault ≡ Fault.Memory) }
{
    let Ok(passes) = heap.passes(alloc, seats) else {
        return Err(Fault::Memory);
    };
    match as_members(alloc, passes) {
        Ok(members) => Ok(members),
        Err(_) => Err(Fault::Memory),
    }
}

// Adds the account lines of the heap. This pass carries its whole tale.
fn push_whole<L: KeyLayout>(output: &mut Vec<u8>, pass: Pass<'_, L>) -> Result<(), AllocError>
    requires shape { IsShape pass.heap.shape }
    requires whole { IsWhole pass.view }
    ensures { OnOk result ((text : List ℕ) × (output.new.items ≡ output.old.items ++ text)
        × TellsTale L.layout pass.entry.heap.shape (tale_told (seen_of_caller L.layout pass.entry))
        pass.entry.view.orders (parts_carried (seen_of_caller L.layout pass.entry)) text) }
{
    let Ok(whole) = whole(pass) else {
        unreachable!()
    };
    push_accounts(output, &mut WholeHeap::new(whole))
}

// Looks once at the heap whose whole tale this pass carries: steps of the core led to all that it knows.
fn look<L: KeyLayout>(pass: Pass<'_, L>)
    requires shape { IsShape pass.heap.shape }
    requires whole { IsWhole pass.view }
    ensures { (events : List Event) × LeadsToWhole L.layout pass.entry events }
{
    let Ok(whole) = whole(pass) else {
        unreachable!()
    };
    let _known = WholeHeap::new(whole).accounts(0, 0);
}

// The replies, and after them the accounts that the carrier knows, if they are asked for.
fn told<L: KeyLayout>(
    mut output: Vec<u8>,
    carrier: HeapMember<'_, L>,
    asked: bool,
) -> Result<Vec<u8>, AllocError>
    ghost at: { HeapSeen × Option ℕ × List CallLine × Bool }
    requires shape { IsShape at.0.shape }
    requires ran { CarrierRan at.3 (Some at.0) (heap_terms L.layout at.0.shape) at.1 at.2 output.items
        (seen_of_member L.layout carrier) }
    ensures { IfOk result (λ output. IsHeapOutput at.3 L.layout at.0.shape at.1 at.2 asked output.items) }
{
    let pass = pass_of(carrier);
    if asked {
        push_whole(&mut output, pass)?;
    } else {
        look(pass);
    }
    Ok(output)
}

/// What is written for lines that ran: their replies, and after them the accounts, if they are asked for. All owners
/// could leave: no run of the core leads to a refusal there.
pub fn gathered<L: KeyLayout>(
    output: Vec<u8>,
    carrier: Option<HeapMember<'_, L>>,
    asked: bool,
) -> Result<Vec<u8>, Fault>
    ghost at: { HeapSeen × Option ℕ × List CallLine × Bool }
    requires shape { IsShape at.0.shape }
    requires ran { LinesRan at.3 (Some at.0) (heap_terms L.layout at.0.shape) at.1 at.2 output.items
        (option_map (λ m. seen_of_member L.layout m) carrier) }
    ensures told { IfOk result (λ output. IsHeapOutput at.3 L.layout at.0.shape at.1 at.2 asked output.items) }
    ensures memory { IfErr result (λ fault. fault ≡ Fault.Memory) }
{
    let Some(carrier) = carrier else {
        unreachable!()
    };
    match told(output, carrier, asked) {
        Ok(output) => Ok(output),
        Err(_) => Err(Fault::Memory),
    }
}
