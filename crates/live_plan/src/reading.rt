//! Reading a script: by small reads, each of which is made when the pieces of those before it have
//! gone in.

ghost use Rattle.std.specs.Prelude.{◌≡◌, ◌+◌, ◌<◌, ◌≤◌, ◌^◌, [], false, length, List, ℕ, IfErr, IfOk, OnOk};
ghost use Rattle.live_plan.specs.Private.Running.{Begun, IsFresh, IsPaid, begun_of};
ghost use Rattle.live_plan.specs.Private.RunningReads.{AreTaken, HasReadAll, IsOneStep, IsOneTaken, IsReadStop, IsRestTaken};

use crate::pieces::Cutter;
use crate::run::{Run, Stop};
use script_input::TEXT_LIMIT;
use sub_base::{ReadFailed, Sink, Source};

/// How many bytes one read asks for: few, so that what is due does not wait for the rest of a long
/// script.
pub(crate) const READ_SIZE: usize = 4096;

/// Reads a script to its end. Before each read all pieces went in that were whole, and what was due
/// was written.
pub(crate) fn read_script<A: Source, K: Sink, N: Sink>(
    run: &mut Run,
    cutter: &mut Cutter,
    buffer: &mut [u8],
    script: &mut A,
    out: &mut K,
    notes: &mut N,
) -> Result<(), Stop>
    requires fresh { IsFresh run.old }
    requires open { run.old.live.outlet.closed ≡ false }
    requires count { run.old.count ≡ 0 }
    requires begins { cutter.old ≡ [] }
    requires room { length buffer.old ≡ 4096 }
    ensures read { OnOk result (HasReadAll
        (begun_of run.old (K.received out.old) (N.received notes.old))
        (A.supplied script.old) (A.supplied script.new)
        (K.received out.new) (N.received notes.new) run.new cutter.new) }
    ensures stop { IfErr result (IsReadStop
        (begun_of run.old (K.received out.old) (N.received notes.old))
        (A.supplied script.old) (A.supplied script.new)
        (K.received out.new) (N.received notes.new)) }
    ensures open { OnOk result (run.new.live.outlet.closed ≡ false) }
    ensures few { OnOk result (run.new.count < 2 ^ 32) }
{
    let mut total = 0u64;
    loop {
        let count = match script.read(buffer) {
            Ok(count) => count,
            Err(ReadFailed) => return Err(Stop::Unread),
        };
        if count == 0 {
            return Ok(());
        }
        if count as u64 > TEXT_LIMIT - total {
            return Err(Stop::TooLong);
        }
        take_bytes(run, cutter, &buffer[..count], out, notes)?;
        total += count as u64;
    }
}

/// Cuts bytes into pieces, which go in as they are whole.
fn take_bytes<K: Sink, N: Sink>(
    run: &mut Run,
    cutter: &mut Cutter,
    bytes: &[u8],
    out: &mut K,
    notes: &mut N,
) -> Result<(), Stop>
    requires open { run.old.live.outlet.closed ≡ false }
    requires few { run.old.count + length bytes.now < 2 ^ 63 }
    ensures taken { (begun : Begun) (earlier : List (List ℕ))
        → IsPaid begun earlier [] (K.received out.old) (N.received notes.old) run.old
        → AreTaken begun earlier cutter.old bytes.now (K.received out.new) (N.received notes.new)
        run.new cutter.new result }
    ensures open { OnOk result (run.new.live.outlet.closed ≡ false) }
    ensures counted { OnOk result (run.new.count ≤ run.old.count + length bytes.now) }
{
    let mut done = 0usize;
    while let Some(count) = take_one(run, cutter, &bytes[done..], out, notes)? {
        done += count;
    }
    Ok(())
}

/// Takes bytes up to the end of the piece in hand, which then goes in, and answers how many these
/// were; all of them, and `None`, where the piece goes on behind them.
fn take_one<K: Sink, N: Sink>(
    run: &mut Run,
    cutter: &mut Cutter,
    bytes: &[u8],
    out: &mut K,
    notes: &mut N,
) -> Result<Option<usize>, Stop>
    requires open { run.old.live.outlet.closed ≡ false }
    requires few { run.old.count < 2 ^ 63 }
    ensures taken { (begun : Begun) (earlier further : List (List ℕ))
        → IsPaid begun earlier further (K.received out.old) (N.received notes.old) run.old
        → IsOneTaken begun earlier further cutter.old bytes.now
        (K.received out.new) (N.received notes.new) run.new cutter.new result }
    ensures open { OnOk result (run.new.live.outlet.closed ≡ false) }
    ensures step { IfOk result (IsOneStep (length bytes.now) run.old.count run.new.count) }
{
    let Some(count) = cutter.take(bytes)? else {
        return Ok(None);
    };
    run.take_piece(cutter.piece(), out, notes)?;
    cutter.clear();
    Ok(Some(count))
}

/// The bytes behind the last whole piece, where there are any, go in as a piece.
pub(crate) fn take_rest<K: Sink, N: Sink>(
    run: &mut Run,
    cutter: &Cutter,
    out: &mut K,
    notes: &mut N,
) -> Result<(), Stop>
    requires open { run.old.live.outlet.closed ≡ false }
    requires few { run.old.count < 2 ^ 63 }
    ensures taken { (begun : Begun) (earlier : List (List ℕ))
        → IsPaid begun earlier [] (K.received out.old) (N.received notes.old) run.old
        → IsRestTaken begun earlier cutter.now (K.received out.new) (N.received notes.new)
        run.new result }
    ensures open { OnOk result (run.new.live.outlet.closed ≡ false) }
{
    let rest = cutter.piece();
    if rest.is_empty() {
        return Ok(());
    }
    run.take_piece(rest, out, notes)
}
