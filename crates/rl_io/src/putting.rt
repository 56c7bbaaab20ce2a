ghost use Rattle.std.specs.Prelude.{ℕ, ◌≡◌, ◌≤◌, ◌<◌, length, take, OnOk, OnErr};
ghost use Rattle.rl_io.specs.Causes.{Rose};
ghost use Rattle.rl_io.specs.Files.{Adds};

use crate::sink::{Put, Sink};

/// A put failed.
#[derive(Clone, Copy, Debug, PartialEq, Eq)]
pub struct SinkFault;

/// Puts the whole text, or a part of it where a put fails.
///
/// Each put is offered the whole rest of the text. The first put that fails ends the call. An empty text makes no
/// call.
pub fn put_all<K: Sink>(sink: &mut K, text: &[u8]) -> Result<(), SinkFault>
    ensures planned { K.plan sink.new ≡ K.plan sink.old }
    ensures later { K.faults sink.old ≤ K.faults sink.new }
    ensures ok { OnOk result (Adds (K.written sink.old) (K.written sink.new) text.now) }
    ensures part { OnErr result ((n : ℕ) × (n < length text.now)
        × Adds (K.written sink.old) (K.written sink.new) (take n text.now)) }
    ensures fault { OnErr result (Rose (K.faults sink.old) (K.faults sink.new)) }
{
    let mut done = 0;
    while done < text.len() {
        match sink.put(&text[done..]) {
            Put::Took(n) => done += n,
            Put::Failed => return Err(SinkFault),
        }
    }
    Ok(())
}
