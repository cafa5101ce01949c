//! The services that the PMTs of programmes list.

ghost use Rattle.std.specs.Prelude.{◌≡◌, ◌≤◌, length, map};
ghost use Rattle.std.specs.List.{flat_map};
ghost use Rattle.psi_tables.specs.Loops.{descriptors_of, streams_of};
ghost use Rattle.psi_tables.specs.Walking.{descriptor_value, stream_value};
ghost use Rattle.service_tables.specs.Reading.{map_of};
ghost use Rattle.service_text.specs.Listing.{ListsMore};
ghost use Rattle.service_text.specs.Private.Entries.{first_service};
ghost use Rattle.service_text.specs.Services.{services_at, services_by, services_in, services_on};

use crate::list::ServiceList;
use crate::service::SubtitleService;
use byteorder::{BigEndian, ByteOrder};
use psi_tables::{
    DescriptorEntry, PRIVATE_DATA, SUBTITLING, StreamEntry, first_descriptor, first_stream,
};
use service_tables::Programme;

/// The bytes of an entry of a descriptor of subtitles.
const ENTRY: usize = 8;

/// Lists the services of programmes.
pub(crate) fn list_programmes(list: &mut ServiceList, programmes: &[Programme])
    ensures { ListsMore list.old list.new (flat_map services_at (map map_of programmes.now)) }
{
    for programme in programmes {
        list_streams(list, programme.number(), programme.streams());
    }
}

/// Lists those of the streams of a programme with that number.
fn list_streams(list: &mut ServiceList, number: u16, streams: &[u8])
    ensures { ListsMore list.old list.new
        (flat_map (services_on number) (streams_of streams.now)) }
{
    let mut rest = streams;
    while let Some((stream, behind)) = first_stream(rest) {
        list_stream(list, number, stream);
        rest = behind;
    }
}

fn list_stream(list: &mut ServiceList, number: u16, stream: StreamEntry<'_>)
    ensures { ListsMore list.old list.new (services_on number (stream_value stream.entry)) }
{
    if stream.kind == PRIVATE_DATA {
        list_descriptors(list, number, stream.pid, stream.descriptors);
    }
}

/// Lists those of the descriptors of a stream.
fn list_descriptors(list: &mut ServiceList, number: u16, pid: u16, descriptors: &[u8])
    ensures { ListsMore list.old list.new
        (flat_map (services_by number pid) (descriptors_of descriptors.now)) }
{
    let mut rest = descriptors;
    while let Some((descriptor, behind)) = first_descriptor(rest) {
        list_descriptor(list, number, pid, descriptor);
        rest = behind;
    }
}

fn list_descriptor(list: &mut ServiceList, number: u16, pid: u16, descriptor: DescriptorEntry<'_>)
    ensures { ListsMore list.old list.new
        (services_by number pid (descriptor_value descriptor.entry)) }
{
    if descriptor.tag == SUBTITLING {
        list_entries(list, number, pid, descriptor.content);
    }
}

/// Lists those of the entries of a descriptor of subtitles.
fn list_entries(list: &mut ServiceList, number: u16, pid: u16, entries: &[u8])
    ensures { ListsMore list.old list.new (services_in number pid entries.now) }
{
    let mut rest = entries;
    while rest.len() >= ENTRY {
        list.list(first_service(number, pid, rest));
        rest = &rest[ENTRY..];
    }
}

/// The service of the entry that begins the bytes.
fn first_service(number: u16, pid: u16, bytes: &[u8]) -> SubtitleService
    requires { 8 ≤ length bytes.now }
    ensures { result ≡ first_service number pid bytes.now }
{
    SubtitleService {
        pid,
        page: BigEndian::read_u16(&bytes[4..6]),
        number,
        ancillary: BigEndian::read_u16(&bytes[6..8]),
        language: [bytes[0], bytes[1], bytes[2]],
        kind: bytes[3],
    }
}
