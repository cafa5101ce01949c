ghost use Rattle.std.specs.Prelude.{◌≡◌, ◌*◌, false, length, vec_len, IfOk};
ghost use Rattle.command_words.specs.Ticks.{asked_ticks};
ghost use Rattle.dvbsub_cmd.specs.ExpectOutcome.{IsExpectCause, authored_text, expect_text};
ghost use Rattle.command_text.specs.Putting.{PutsOut};
ghost use Rattle.sub_base.specs.Seen.{seen};

use crate::read_script::read_script;
use crate::status::Status;
use command_text::{TextBuffer, flush, put_picture};
use command_words::ticks_of;
use cue_list::{Script, picture_at};
use dvbsub_words::WORDS_OF_EXPECT;
use std::alloc::{AllocError, Global};
use sub_base::{CLEAR, Colour, Sink, Source, Which, Words};

/// Writes the authored pictures of a script at the ticks that are asked for.
pub fn expect<A: Source, B: Source, K: Sink>(
    alloc: Global,
    words: &Words,
    has_font: bool,
    first: &mut A,
    second: &mut B,
    out: &mut K,
) -> Status
    ensures cause { IsExpectCause has_font (asked_ticks 4 words.now)
        (seen (A.supplied first.old) (B.supplied second.old) (K.received out.old))
        (seen (A.supplied first.new) (B.supplied second.new) (K.received out.new))
        result }
    ensures second { has_font ≡ false → second.new ≡ second.old }
{
    let script = match read_script(alloc, has_font, first, second) {
        Ok(script) => script,
        Err(status) => return status,
    };
    let Ok(ticks) = ticks_of(alloc, words, WORDS_OF_EXPECT) else {
        return Status::Memory;
    };
    let Ok(mut plane) = plane_of(alloc, &script) else {
        return Status::Memory;
    };
    let Ok(mut buffer) = TextBuffer::make(alloc) else {
        return Status::Memory;
    };
    // All memory is taken, so that only the sink can fail from here on.
    put_pictures(
        out,
        &mut buffer,
        &script,
        ticks.as_slice(),
        plane.as_mut_slice(),
    );
    flush(out, &mut buffer);
    if buffer.has_failed() {
        Status::WriteFault(Which::Out)
    } else {
        Status::Done { cut: 0 }
    }
}

/// A plane of the script's display.
pub fn plane_of(alloc: Global, script: &Script) -> Result<Vec<Colour>, AllocError>
    ensures { IfOk result (λ plane. vec_len plane ≡ script.now.width * script.now.height) }
{
    vec![in alloc; CLEAR; usize::from(script.width) * usize::from(script.height)]
}

/// Puts out the texts of the authored pictures at the ticks that are asked for.
pub fn put_pictures<K: Sink>(
    out: &mut K,
    buffer: &mut TextBuffer,
    script: &Script,
    ticks: &[u64],
    plane: &mut [Colour],
)
    requires { length plane.old ≡ script.now.width * script.now.height }
    ensures { PutsOut
        (K.received out.old)
        (K.received out.new)
        buffer.old buffer.new (expect_text script.now ticks.now) }
{
    for tick in ticks {
        put_authored(out, buffer, script, *tick, plane);
    }
}

/// Puts out the text of the authored picture at a tick.
fn put_authored<K: Sink>(
    out: &mut K,
    buffer: &mut TextBuffer,
    script: &Script,
    tick: u64,
    plane: &mut [Colour],
)
    requires { length plane.old ≡ script.now.width * script.now.height }
    ensures { PutsOut
        (K.received out.old)
        (K.received out.new)
        buffer.old buffer.new (authored_text script.now tick) }
{
    picture_at(script, tick, plane);
    put_picture(
        out,
        buffer,
        tick,
        u32::from(script.width),
        u32::from(script.height),
        plane,
    );
}
