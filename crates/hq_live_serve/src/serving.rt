ghost use Rattle.std.specs.Prelude.{◌≡◌, ◌≤◌, [], OnErr, OnOk, IfOk, IsErrOf, IsNone};
ghost use Rattle.std.specs.Io.KnownBytes.{Appends};
ghost use Rattle.hq_io.specs.Causes.{HasCause, Rose};
ghost use Rattle.hq_session.specs.Hook.{KeepsRule};
ghost use Rattle.hq_live.specs.Asking.{KeepsFiles};
ghost use Rattle.hq_live.specs.Runs.{standing};
ghost use Rattle.hq_live_serve.specs.Lines.{line_of};
ghost use Rattle.hq_serve.specs.Serving.{Wrote};
ghost use Rattle.hq_live_serve.specs.Serving.{HoldsNext, ServesTalks};

use crate::line::put_line;
use hq_base::Bytes;
use hq_io::{Sink, write_all};
use hq_live::{Asker, Live};
use hq_live_talk::{TalkEnd, talk};
use hq_messages::{Hall, HallFailed};
use hq_serve::ServeRefusal;
use hq_session::{Headers, Hook, HookAnswer, HookRule};
use std::alloc::Global;

// Writes the line after the talk of this number.
fn write_line<K: Sink>(
    out: &mut K,
    line: &mut Bytes,
    number: u64,
    end: TalkEnd,
) -> Result<(), ServeRefusal>
    ensures ok { OnOk result (Appends (K.written out.old) (K.written out.new) (line_of number end)) }
    ensures wrote { Wrote (K.written out.old) (K.written out.new) (line_of number end) result }
    ensures write { IsErrOf result ServeRefusal.WriteFailed → Rose (K.faults out.old) (K.faults out.new) }
    ensures later { K.faults out.old ≤ K.faults out.new }
{
    put_line(line, number, end)?;
    write_all(out, line.as_slice())?;
    Ok(())
}

// Accepts the next peer, talks with it, and closes.
fn talk_next<H: Hall, A: Asker, P: HookRule, F: Fn(&Headers) -> HookAnswer>(
    alloc: Global,
    hall: &mut H,
    live: &mut Live<A>,
    hook: &Hook<P, F>,
) -> Result<TalkEnd, HallFailed>
    requires keeps { KeepsRule F.Fn P.allows hook.now }
    requires none { live.old.subscriptions.items ≡ [] }
    ensures holds { IfOk result (HoldsNext (P.allows hook.now.rule) (record { left = H.Talk.left; sent = H.Talk.sent; faults = H.Talk.faults })
        (standing (A.due live.old.asker) (A.next live.old.asker) (A.faults live.old.asker) live.old.subscriptions.items)
        (standing (A.due live.new.asker) (A.next live.new.asker) (A.faults live.new.asker) live.new.subscriptions.items)
        (H.accepted hall.old) (H.accepted hall.new) (H.talks hall.old) (H.talks hall.new)) }
    ensures none { live.new.subscriptions.items ≡ [] }
    ensures cause { HasCause (H.faults hall.old) (H.faults hall.new) result }
    ensures talks { OnErr result (H.talks hall.new ≡ H.talks hall.old) }
    ensures accepted { OnErr result (H.accepted hall.new ≡ H.accepted hall.old) }
    ensures closed { OnOk result (IsNone (H.present hall.new)) }
    ensures present_err { OnErr result (H.present hall.new ≡ H.present hall.old) }
    ensures unasked { OnErr result (live.new ≡ live.old) }
    ensures files { KeepsFiles A.reads live.old.asker live.new.asker }
    ensures later { A.faults live.old.asker ≤ A.faults live.new.asker }
{
    hall.accept()?;
    let end = talk(alloc, hall.present(), live, hook, 1);
    hall.close();
    Ok(end)
}

/// Talks with so many peers of a hall that listens, one after the other, closes the connection of each at its end, and writes
/// `connection K: END` and a line end after it, K from 1 on. It ends before that where the hall, the sink or memory fails, and not
/// where a link or the asker does.
pub fn serve_talks<H: Hall, A: Asker, P: HookRule, F: Fn(&Headers) -> HookAnswer, K: Sink>(
    alloc: Global,
    hall: &mut H,
    live: &mut Live<A>,
    hook: &Hook<P, F>,
    out: &mut K,
    connections: u32,
) -> Result<(), ServeRefusal>
    requires keeps { KeepsRule F.Fn P.allows hook.now }
    requires none { live.old.subscriptions.items ≡ [] }

    // Which talks were held, with whom, and what was written after them.
    ensures serves { ServesTalks (P.allows hook.now.rule) (record { left = H.Talk.left; sent = H.Talk.sent; faults = H.Talk.faults }) connections
        (standing (A.due live.old.asker) (A.next live.old.asker) (A.faults live.old.asker) live.old.subscriptions.items)
        (standing (A.due live.new.asker) (A.next live.new.asker) (A.faults live.new.asker) live.new.subscriptions.items)
        (H.accepted hall.old) (H.accepted hall.new) (H.talks hall.old) (H.talks hall.new)
        (K.written out.old) (K.written out.new) result }

    // No subscription is left, and no peer stays connected.
    ensures none { live.new.subscriptions.items ≡ [] }
    ensures closed { IsNone (H.present hall.old) → IsNone (H.present hall.new) }

    // A failure is told only where that count rose.
    ensures hall { IsErrOf result ServeRefusal.DoorFailed → Rose (H.faults hall.old) (H.faults hall.new) }
    ensures write { IsErrOf result ServeRefusal.WriteFailed → Rose (K.faults out.old) (K.faults out.new) }

    // No count falls, and files that the asker reads from stay those of their folder.
    ensures hall_later { H.faults hall.old ≤ H.faults hall.new }
    ensures out_later { K.faults out.old ≤ K.faults out.new }
    ensures asker_later { A.faults live.old.asker ≤ A.faults live.new.asker }
    ensures files { KeepsFiles A.reads live.old.asker live.new.asker }
{
    let mut line = Bytes::new(alloc);
    'talks: for served in 0..connections {
        let Ok(end) = talk_next(alloc, hall, live, hook) else {
            return Err(ServeRefusal::DoorFailed);
        };
        match write_line(out, &mut line, served as u64 + 1, end) {
            Ok(()) => {}
            Err(refusal) => return Err(refusal),
        }
    }
    Ok(())
}
