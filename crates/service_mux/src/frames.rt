ghost use Rattle.std.specs.Prelude.{◌≡◌, ◌+◌, ◌/◌, ◌%◌, ◌^◌, ◌<◌, [], IfOk, length, true, Some};
ghost use Rattle.std.specs.List.{concat};
ghost use Rattle.command_text.specs.Putting.{PutsOut};
ghost use Rattle.stream_syntax.specs.TransportPackets.{null_packet as null_bytes, written_packet};
ghost use Rattle.sub_base.specs.Endpoints.{Supplied};
ghost use Rattle.service_mux.specs.Multiplex.{if_of, table_packets, turn_packet};
ghost use Rattle.service_mux.specs.MuxWords.{AreServices};
ghost use Rattle.service_mux.specs.Private.Frames.{HasTurned, HaveNotTurned, HaveSameLanes, HaveTurned, frame_bytes};
ghost use Rattle.service_mux.specs.Private.Lanes.{HasPassed, IsSound, PassesReached, Reaches, reached};
ghost use Rattle.service_mux.specs.declared.mux_words.ServicePair.{ServicePair};
ghost use Rattle.psi_tables.specs.Writing.{written_pmt};

use crate::lane::Lane;
use crate::mux_words::ServicePair;
use crate::table::Table;
use command_text::{TextBuffer, put};
use psi_tables::{Service, write_pat, write_pmt};
use std::alloc::Global;
use stream_syntax::PACKET_LENGTH;
use sub_base::{NoMemory, Sink};
use ts_packets::{is_of_pid, null_packet};

/// How many frames there are from one turn of a table to the next one.
const ROUND: u64 = 128;

/// What a multiplex has of a service: its PMT, and the packets of its stream.
#[derive(Drop)]
pub(crate) struct ServiceLane {
    /// The PMT.
    pub table: Table,
    /// The packets of the stream.
    pub lane: Lane,
}

/// Two streams that are joined to one, and the tables that name them.
#[derive(Drop)]
pub(crate) struct Multiplexer {
    /// The services.
    pub pair: ServicePair,
    /// The PAT.
    pub pat: Table,
    /// The first service.
    pub one: ServiceLane,
    /// The second service.
    pub two: ServiceLane,
}

impl Multiplexer {
    /// The multiplex of these services, of which nothing was read and written. All its memory is
    /// taken here.
    pub(crate) fn make(alloc: Global, pair: &ServicePair) -> Result<Multiplexer, NoMemory>
        requires { AreServices pair.now }
        ensures tables { IfOk result (λ mux. HaveNotTurned mux.pair mux) }
        ensures pair { IfOk result (λ mux. mux.pair ≡ pair.now) }
        ensures first { IfOk result
            (λ mux. (now : Supplied) → HasPassed now now mux.one.lane []) }
        ensures second { IfOk result
            (λ mux. (now : Supplied) → HasPassed now now mux.two.lane []) }
        ensures sound { IfOk result (λ mux. IsSound mux.one.lane × IsSound mux.two.lane) }
    {
        let mut section = Vec::new(alloc);
        write_pat(&[pair.one, pair.two], &mut section)?;
        Ok(Multiplexer {
            pair: *pair,
            pat: Table::make(0, section.as_slice()),
            one: ServiceLane::make(alloc, &pair.one)?,
            two: ServiceLane::make(alloc, &pair.two)?,
        })
    }
}

impl ServiceLane {
    fn make(alloc: Global, service: &Service) -> Result<ServiceLane, NoMemory>
        requires pmt { service.now.pmt < 2 ^ 13 }
        requires pid { service.now.pid < 2 ^ 13 }
        requires language { length service.now.language ≡ 3 }
        ensures table { IfOk result
            (λ made. HasTurned made.table service.now.pmt (written_pmt service.now) 0) }
        ensures nothing { IfOk result
            (λ made. (now : Supplied) → HasPassed now now made.lane []) }
        ensures sound { IfOk result (λ made. IsSound made.lane) }
    {
        let mut section = Vec::new(alloc);
        write_pmt(service, &mut section)?;
        Ok(ServiceLane {
            table: Table::make(service.pmt, section.as_slice()),
            lane: Lane::make(alloc)?,
        })
    }
}

/// Puts out the packets of all tables, before any frame.
pub(crate) fn put_tables<K: Sink>(out: &mut K, buffer: &mut TextBuffer, mux: &mut Multiplexer)
    requires { HaveNotTurned mux.old.pair mux.old }
    ensures puts { PutsOut (K.received out.old) (K.received out.new) buffer.old buffer.new
        (concat (table_packets mux.old.pair)) }
    ensures turned { HaveTurned mux.old.pair mux.new 0 }
    ensures kept { HaveSameLanes mux.old mux.new }
{
    put_table(out, buffer, &mut mux.pat);
    put_table(out, buffer, &mut mux.one.table);
    put_table(out, buffer, &mut mux.two.table);
}

/// Puts out a frame: the packet of the table whose turn it is, where it is one's, and one of each
/// service, which is passed.
pub(crate) fn put_frame<K: Sink>(
    out: &mut K,
    buffer: &mut TextBuffer,
    mux: &mut Multiplexer,
    frame: u64,
    has_first: bool,
    has_second: bool,
)
    requires first { IsSound mux.old.one.lane × Reaches mux.old.one.lane has_first }
    requires second { IsSound mux.old.two.lane × Reaches mux.old.two.lane has_second }
    requires turned { HaveTurned mux.old.pair mux.old frame }
    ensures puts { PutsOut (K.received out.old) (K.received out.new) buffer.old buffer.new
        (frame_bytes mux.old.pair mux.old frame has_first has_second) }
    ensures turned { HaveTurned mux.old.pair mux.new (frame + 1) }
    ensures first { PassesReached mux.old.one.lane mux.new.one.lane has_first }
    ensures second { PassesReached mux.old.two.lane mux.new.two.lane has_second }
    ensures sound { IsSound mux.new.one.lane × IsSound mux.new.two.lane }
    ensures pair { mux.new.pair ≡ mux.old.pair }
    ensures ended { (mux.new.one.lane.is_ended ≡ mux.old.one.lane.is_ended)
        × (mux.new.two.lane.is_ended ≡ mux.old.two.lane.is_ended) }
{
    put_turn(out, buffer, mux, frame);
    put_reached(out, buffer, mux.pair.one.pid, &mut mux.one.lane, has_first);
    put_reached(out, buffer, mux.pair.two.pid, &mut mux.two.lane, has_second);
}

/// Puts out the first packet of a frame.
fn put_turn<K: Sink>(out: &mut K, buffer: &mut TextBuffer, mux: &mut Multiplexer, frame: u64)
    requires { HaveTurned mux.old.pair mux.old frame }
    ensures puts { PutsOut (K.received out.old) (K.received out.new) buffer.old buffer.new
        (turn_packet mux.old.pair (1 + frame / 128) (frame % 128)) }
    ensures turned { HaveTurned mux.old.pair mux.new (frame + 1) }
    ensures kept { HaveSameLanes mux.old mux.new }
{
    let turn = frame % ROUND;
    if turn == 0 {
        put_table(out, buffer, &mut mux.pat);
    } else if turn == 1 {
        put_table(out, buffer, &mut mux.one.table);
    } else if turn == 2 {
        put_table(out, buffer, &mut mux.two.table);
    } else {
        put_null(out, buffer);
    }
}

/// Puts out the next packet of a table.
fn put_table<K: Sink>(out: &mut K, buffer: &mut TextBuffer, table: &mut Table)
    ensures puts { PutsOut (K.received out.old) (K.received out.new) buffer.old buffer.new
        (written_packet table.old.packetiser.pid true table.old.packetiser.counter
        table.old.payload) }
    ensures pid { table.new.packetiser.pid ≡ table.old.packetiser.pid }
    ensures counter { table.new.packetiser.counter
        ≡ (table.old.packetiser.counter + 1) % 16 }
    ensures payload { table.new.payload ≡ table.old.payload }
{
    let mut packet = [0; PACKET_LENGTH];
    table.next(&mut packet);
    put(out, buffer, &packet);
}

/// Puts out the null packet.
fn put_null<K: Sink>(out: &mut K, buffer: &mut TextBuffer)
    ensures { PutsOut (K.received out.old) (K.received out.new) buffer.old buffer.new null_bytes }
{
    let mut packet = [0; PACKET_LENGTH];
    null_packet(&mut packet);
    put(out, buffer, &packet);
}

/// Puts out and passes the packet of a stream that was reached; the null packet where it has
/// another PID, or there is none.
fn put_reached<K: Sink>(out: &mut K, buffer: &mut TextBuffer, pid: u16, lane: &mut Lane, more: bool)
    requires sound { IsSound lane.old }
    requires reached { Reaches lane.old more }
    ensures puts { PutsOut (K.received out.old) (K.received out.new) buffer.old buffer.new
        (if_of pid (reached lane.old more)) }
    ensures passes { PassesReached lane.old lane.new more }
    ensures sound { IsSound lane.new }
    ensures ended { lane.new.is_ended ≡ lane.old.is_ended }
{
    if !more {
        put_null(out, buffer);
        return;
    }
    put_of_pid(out, buffer, pid, lane.packet());
    lane.pass();
}

/// Puts out the packet where it has that PID, and else the null packet.
fn put_of_pid<K: Sink>(out: &mut K, buffer: &mut TextBuffer, pid: u16, packet: &[u8; 188])
    ensures { PutsOut (K.received out.old) (K.received out.new) buffer.old buffer.new
        (if_of pid (Some packet.now)) }
{
    if is_of_pid(pid, packet) {
        put(out, buffer, packet);
    } else {
        put_null(out, buffer);
    }
}
