//! A replay: the manifest's schedule, run step by step, and the reports of its nodes.

ghost use Rattle.std.specs.Prelude.{◌≡◌, IfErr, IfOk, OnErr, OnOk};
ghost use Rattle.std.specs.Io.KnownBytes.{Appends};
ghost use Rattle.mpi_model.specs.Failures.{CountsFailure, HasFailed};
ghost use Rattle.dumpi_text.specs.Failing.{Fails};
ghost use Rattle.run_inputs.specs.Files.{NamesFailed};
ghost use Rattle.command_runs.specs.Replays.{AreLeft, AreNodesOf, BeginsTextOf, IsTextOf, NoneStale, RefusesReplay, RefusesSteps, node_line, node_text, stop_of};
ghost use Rattle.command_runs.specs.Verbs.{Ran};
ghost use Rattle.run_inputs.specs.Writing.{AppendsFront, Writes, WritesFront};

use crate::pieces::segments::segments_of_all;
use crate::run::{Outcome, Run};
use crate::verbs::schedule::world_steps;
use crate::verbs::writing::write_piece;
use command_line::Verb;
use itoa::Buffer;
use mpi_model::{Failed, Layout, Write};
use run_inputs::{RunFault, SharedOpener, StepCause, Watcher};
use std::alloc::Global;
use trace_node::Answer;
use trace_report::write_report;
use trace_world::{Step, World, WorldFault, states_refuse};

/// Writes, for each node that the schedule leaves, its line and its report.
pub fn replay<O: SharedOpener, V: Watcher + Sync, W: Write>(
    run: &Run<'_, O>,
    watcher: &mut V,
    out: &mut W,
) -> Result<Outcome, RunFault>
where
    O::R: Send,
    ensures ran { Ran (O.file run.now.files.now) Verb.Replay run.now.layout.now run.now.manifest.now result W.written W.failures out.old out.new }
    ensures failed { IfErr result (NamesFailed (Fails O.R.failures)) }
{
    let world = world_of(run, watcher)?;
    match write_nodes(&world, out) {
        Ok(()) => Ok(Outcome::Good),
        Err(_) => Err(RunFault::Write),
    }
}

/// The world of the layout that the manifest's schedule leaves, with the pieces of their files.
fn world_of<'a, O: SharedOpener, V: Watcher + Sync>(
    run: &Run<'a, O>,
    watcher: &mut V,
) -> Result<World<'a>, RunFault>
where
    O::R: Send,
    ensures ok { IfOk result (λ world. AreNodesOf (O.file run.now.files.now) run.now.layout.now run.now.manifest.now world.nodes) }
    ensures fresh { IfOk result (λ world. NoneStale world.nodes) }
    ensures err { IfErr result (RefusesReplay (O.file run.now.files.now) run.now.layout.now run.now.manifest.now) }
    ensures failed { IfErr result (NamesFailed (Fails O.R.failures)) }
{
    let manifest = run.manifest;
    let lists = segments_of_all(run.alloc, manifest.pieces(), run.files, watcher)?;
    let steps = world_steps(run.alloc, manifest.schedule(), &lists)?;
    world_after(run.alloc, run.layout, manifest.nodes(), &steps)
}

/// So many nodes after these steps.
fn world_after<'a>(
    alloc: Global,
    layout: &'a Layout,
    nodes: usize,
    steps: &[Step],
) -> Result<World<'a>, RunFault>
    ensures ok { IfOk result (λ world. AreLeft layout.now nodes steps.now world.nodes) }
    ensures fresh { IfOk result (λ world. NoneStale world.nodes) }
    ensures err { IfErr result (λ fault. RefusesSteps layout.now nodes steps.now fault) }
{
    states_refuse();
    let mut world = match World::new(alloc, layout, nodes) {
        Ok(world) => world,
        Err(WorldFault::NodeCount) => return Err(RunFault::NodeCount),
        Err(WorldFault::Memory) => return Err(RunFault::Memory),
        // (no step was refused yet)
        Err(_) => unreachable!(),
    };
    let ran = world.run(steps);
    world.known();
    match ran {
        Ok(()) => Ok(world),
        Err(stop) => Err(stop_of(stop.fault, stop.step)),
    }
}

/// What a run that ended at a step is to a replay: a node loses its answer for want of memory alone.
fn stop_of(fault: WorldFault, step: usize) -> RunFault
    ensures { result ≡ stop_of fault step }
{
    let cause = match fault {
        WorldFault::Memory | WorldFault::Stale => return RunFault::Memory,
        WorldFault::NoNode => StepCause::NoNode,
        WorldFault::NoMail => StepCause::NoMail,
        WorldFault::EmptyInbox => StepCause::EmptyInbox,
        WorldFault::Rank => StepCause::Rank,
        WorldFault::FrameLength => StepCause::FrameLength,
        WorldFault::NodeCount => StepCause::NodeCount,
    };
    RunFault::Step { cause, step }
}

/// Writes the line and the report of each node.
fn write_nodes<W: Write>(world: &World<'_>, out: &mut W) -> Result<(), Failed>
    requires fresh { NoneStale world.now.nodes }
    ensures ok { OnOk result (Writes (IsTextOf world.now.nodes) (W.written out.old) (W.written out.new)) }
    ensures err { OnErr result (WritesFront (BeginsTextOf world.now.nodes) (W.written out.old) (W.written out.new)) }
    ensures failed { OnErr result (HasFailed (W.failures out.old) (W.failures out.new)) }
{
    world.known();
    let mut n = 0;
    while let Some(node) = world.node(n) {
        let Ok(answer) = node.answer() else {
            unreachable!()
        };
        write_node(n, answer, out)?;
        n += 1;
    }
    Ok(())
}

/// Writes the line and the report of one node.
pub(crate) fn write_node<W: Write>(n: usize, answer: &Answer, out: &mut W) -> Result<(), Failed>
    ensures ok { OnOk result (Appends (W.written out.old) (W.written out.new) (node_text n answer.now)) }
    ensures err { OnErr result (AppendsFront (W.written out.old) (W.written out.new) (node_text n answer.now)) }
    ensures failures { CountsFailure (W.failures out.old) (W.failures out.new) result }
{
    write_line(n, out)?;
    match write_report(answer, out) {
        Ok(_) => Ok(()),
        Err(_) => Err(Failed),
    }
}

/// `node N`, in memory of its own: after the first node no memory can be lacking.
fn write_line<W: Write>(n: usize, out: &mut W) -> Result<(), Failed>
    ensures ok { OnOk result (Appends (W.written out.old) (W.written out.new) (node_line n)) }
    ensures err { OnErr result (AppendsFront (W.written out.old) (W.written out.new) (node_line n)) }
    ensures failures { CountsFailure (W.failures out.old) (W.failures out.new) result }
{
    let mut buffer = Buffer::new();
    write_piece(b"node ", out)?;
    write_piece(buffer.format(n).as_bytes(), out)?;
    write_piece(b"\n", out)
}
