//! Talks of live queries over a world.
ghost use Rattle.std.specs.Prelude.{◌≡◌, IfErr, IsErrOf, Some};
ghost use Rattle.hq_io.specs.Causes.{Rose};
ghost use Rattle.hq_command.specs.Ending.{NotDatabase};
ghost use Rattle.hq_app.specs.Outside.{NoneFell};
ghost use Rattle.hq_app.specs.Runs.{ReadCause, Runs};

use crate::top::Ended;
use crate::{Observed, World};
use hq_base::Txt;
use hq_cli::Command;
use hq_command::Refusal;
use hq_command_live::live;
use hq_io::{Disk, Door, Files, Sink, Source};
use hq_messages::{Hall, Messages};
use hq_session::SecretRule;
use std::alloc::Global;

/// Talks with the peers of the hall over a directory.
pub fn live_over<F: Files, D: Door, X: Disk, S: Source, K: Sink, E: Sink, H: Hall>(
    alloc: Global,
    dir: Txt,
    rule: &SecretRule,
    port: u16,
    connections: u32,
    world: World<F, D, X, S, K, E, H>,
) -> Ended<F, D, X, S, K, E, H>
    ensures runs { Runs (Some (Command.Live dir port connections rule.now.secret rule.now.unauthorized))
        (⟦<World<F, D, X, S, K, E, H> as Observed>⟧.seen world) (⟦<World<F, D, X, S, K, E, H> as Observed>⟧.seen result.world)
        result.answer }
    ensures read { IsErrOf result.answer Refusal.ReadFailed
        → ReadCause (Some (Command.Live dir port connections rule.now.secret rule.now.unauthorized))
        (⟦<World<F, D, X, S, K, E, H> as Observed>⟧.seen world) (⟦<World<F, D, X, S, K, E, H> as Observed>⟧.seen result.world) }
    ensures failed { IfErr result.answer NotDatabase }
    ensures input { result.world.input ≡ world.input }
    ensures door { result.world.door ≡ world.door }
    ensures disk { result.world.disk ≡ world.disk }
    ensures words { IsErrOf result.answer Refusal.BadWords → ⊥ }
    ensures write { IsErrOf result.answer Refusal.WriteFailed → Rose (K.faults world.out) (K.faults result.world.out) }
    ensures err { result.world.err ≡ world.err }
    ensures folder { F.folder result.world.files ≡ F.folder world.files }
    ensures later { NoneFell (⟦<World<F, D, X, S, K, E, H> as Observed>⟧.seen world) (⟦<World<F, D, X, S, K, E, H> as Observed>⟧.seen result.world) }
{
    let World {
        files,
        door,
        disk,
        input,
        mut out,
        err,
        mut hall,
    } = world;
    let (hall_in, out_in) = (&mut hall, &mut out);
    let held = live(alloc, dir, rule, port, connections, files, hall_in, out_in);
    Ended {
        answer: held.answer,
        world: World {
            files: held.files,
            door,
            disk,
            input,
            out,
            err,
            hall,
        },
    }
}
