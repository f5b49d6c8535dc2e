//! Two peers that send each other requests and replies, over links whose bytes arrive in any pieces (JSON-RPC 2.0,
//! sections 4 and 5). Whatever the order of their steps, each takes exactly what the other wrote, and each reply
//! returns the payload of its own request, once. The contract of `run_through` says this.
//!
//! Standard input has runs, each with two new peers and a blank line after it: a title, and steps as in `script.rt`.
#![tactic(auto)]

ghost use Rattle.std.specs.Prelude.{◌≡◌, ◌==◌, length, IfOk};
ghost use Rattle.example_two_peers.specs.Exchanged.{Exchanged, link_of};
ghost use Rattle.lsp_peers.specs.HistoryLaw.{FactsOf};

mod script;

use anyhow::Result;
use lsp_peers::laws::each_request_is_in_one_place;
use lsp_peers::{Outcome, Side, Step, World, WorldFault};
use lsp_watched::laws::peers_keep_ids;
use script::step_of;
use std::alloc::Global;
use std::io;

/// Runs the steps of both sides, in the order in which they are given. It returns whether each side took everything
/// that the other one wrote. If so, and only then, nothing is left in the links.
fn run_through(alloc: Global, steps: Vec<Step>) -> Result<(World, Vec<Outcome>, bool), WorldFault>
    // Each side took a prefix of the messages that the other wrote, and all of them if the result says so. Each request is in one place. A watch
    // finds no broken rule of ids.
    ensures took { IfOk result (λ r. Exchanged steps.items r.1.items r.0 r.2) }
    // Each reply returns the payload of its own request, once.
    ensures facts { IfOk result (λ r. FactsOf steps.items r.1.items) }
{
    each_request_is_in_one_place();
    peers_keep_ids();
    let (world, outcomes) = World::run(alloc, steps)?;
    let all = is_idle(&world, Side::A) && is_idle(&world, Side::B);
    Ok((world, outcomes, all))
}

/// Returns whether no byte is in the link to a side.
fn is_idle(world: &World, side: Side) -> bool
    ensures { result ≡ (length (link_of side world.now) == 0) }
{
    world.arrived(side).is_empty() && world.on_way(side).is_empty()
}

fn main(rt: HostRuntime) -> Result<()> {
    let alloc = rt.alloc();
    let script = io::read_to_string(alloc, rt.reader())?;
    for run in script.as_str().split_terminator("\n\n") {
        let (title, lines) = run.split_once("\n").unwrap_or((run, ""));
        println!(&rt; "{title}")?;
        show_run(&rt, alloc, lines)?;
    }
    Ok(())
}

/// Runs two new peers through the steps of these lines, and shows the outcome of each.
fn show_run<R: Print>(rt: &R, alloc: Global, lines: &str) -> Result<()> {
    let steps = lines.lines().map(|line| step_of(alloc, line));
    match run_through(alloc, steps.try_collect(alloc)?) {
        Ok((mut world, outcomes, all)) => {
            for (line, outcome) in lines.lines().zip(outcomes.iter()) {
                println!(rt; "{line}: {outcome:?}")?;
            }
            show_side(rt, alloc, &mut world, Side::A)?;
            show_side(rt, alloc, &mut world, Side::B)?;
            Ok(println!(rt; "Each took all that the other wrote: {all}\n")?)
        }
        Err(fault) => Ok(println!(rt; "fault {}: {fault}\n", fault.number())?),
    }
}

/// Shows what a side took, whether it waits for a reply, and whether it holds a request.
fn show_side<R: Print>(rt: &R, alloc: Global, world: &mut World, side: Side) -> Result<()> {
    for message in world.hand_out(alloc, side) {
        println!(rt; "{side:?} took {}", message.member_text(alloc)?)?;
    }
    let waits = world.queue(side).outgoing.has_pending();
    let holds = world.queue(side).incoming.has_pending();
    Ok(println!(rt; "{side:?} waits: {waits}, holds: {holds}")?)
}
