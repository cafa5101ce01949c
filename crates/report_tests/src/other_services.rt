//! Sets of services at the edges of what words may say.

use crate::same::same;
use samples::streams::set_packet;
use samples::{sink_of, source_of_packets, words_of};
use std::alloc::Global;
use std::panic::Expect;
use std::process::Abort;
use std::thread::Threads;
use stream_report::{faults_top, levels_top, pictures_top};
use sub_base::{NoGate, ToolStatus};

/// A profile, the PID of a service's packets, and the page id of its segments.
struct Service {
    profile: &'static str,
    pid: u16,
    page: u16,
}

const SERVICES: [Service; 3] = [
    Service {
        profile: "hd",
        pid: 32,
        page: 1,
    },
    Service {
        profile: "large",
        pid: 8190,
        page: 65535,
    },
    Service {
        profile: "wide",
        pid: 256,
        page: 65535,
    },
];

/// A set whose page has no regions and begins an epoch, in a packet of its own. Its PES packet has
/// 31 bytes.
fn packet_of(service: &Service, counter: u8, pts: u32) -> [u8; 188] {
    let [high, low] = service.page.to_be_bytes();
    let segments = [
        0x0F, 0x10, high, low, 0x00, 0x02, 0x00, 0x0B, 0x0F, 0x80, high, low, 0x00, 0x00,
    ];
    let mut packet = set_packet(counter, pts, &segments);
    let [high, low] = service.pid.to_be_bytes();
    packet[1] = 0x40 | high;
    packet[2] = low;
    packet
}

/// Two sets of the service, a second apart.
fn two_sets(service: &Service) -> [[u8; 188]; 2] {
    [
        packet_of(service, 0, 90_000),
        packet_of(service, 1, 180_000),
    ]
}

/// The display is clear from each set on.
fn pictures_are_told<R: Threads + Sync + Abort>(rt: &R, alloc: Global, service: &Service) {
    let Service { profile, pid, page } = service;
    let line = format!(in alloc; "pictures {profile} {pid} {page} 2 in.ts out.txt").expect(
        rt, "memory",
    );
    let words = words_of(alloc, line.as_str()).expect(rt, "memory");
    let mut stream = source_of_packets(alloc, &two_sets(service), &[], 100, 0).expect(rt, "memory");
    let mut out = sink_of(alloc, 1_000_000, 0).expect(rt, "memory");
    let mut notes = sink_of(alloc, 1_000_000, 0).expect(rt, "memory");
    let told = pictures_top(
        rt,
        alloc,
        &words,
        &mut stream,
        &mut out,
        &mut notes,
        &NoGate,
    );
    same(rt, told, ToolStatus::Done);
    let text = "picture 90000 clear\npicture 180000 clear\n";
    same(rt, out.written(), text.as_bytes());
}

/// Both sets are shown.
fn faults_are_told<R: Abort>(rt: &R, alloc: Global, service: &Service) {
    let Service { profile, pid, page } = service;
    let line = format!(in alloc; "faults {profile} {pid} {page} in.ts out.txt").expect(
        rt, "memory",
    );
    let words = words_of(alloc, line.as_str()).expect(rt, "memory");
    let mut stream = source_of_packets(alloc, &two_sets(service), &[], 100, 0).expect(rt, "memory");
    let mut out = sink_of(alloc, 1_000_000, 0).expect(rt, "memory");
    let mut notes = sink_of(alloc, 1_000_000, 0).expect(rt, "memory");
    let told = faults_top(alloc, &words, &mut stream, &mut out, &mut notes);
    same(rt, told, ToolStatus::Done);
    let text = "sets 2 shown 2 waiting 0 broken 0 notlater 0 lost 0\n";
    same(rt, out.written(), text.as_bytes());
}

/// At 90 ticks a packet the second set comes when the first is done, and waits for its time.
fn levels_are_told<R: Abort>(rt: &R, alloc: Global, service: &Service) {
    let Service { profile, pid, page } = service;
    let line = format!(in alloc; "levels {profile} {pid} {page} 1504000 in.ts out.txt").expect(
        rt, "memory",
    );
    let words = words_of(alloc, line.as_str()).expect(rt, "memory");
    let mut stream = source_of_packets(alloc, &two_sets(service), &[], 100, 0).expect(rt, "memory");
    let mut out = sink_of(alloc, 1_000_000, 0).expect(rt, "memory");
    let mut notes = sink_of(alloc, 1_000_000, 0).expect(rt, "memory");
    let told = levels_top(alloc, &words, &mut stream, &mut out, &mut notes);
    same(rt, told, ToolStatus::Done);
    let text = "set 90000 shown 31 31\nset 180000 shown 31 90031\npeak 31\nbreach none\n";
    same(rt, out.written(), text.as_bytes());
}

#[test]
fn sets_of_any_service_are_told(rt: HostRuntime) {
    for service in &SERVICES {
        pictures_are_told(&rt, rt.alloc(), service);
        faults_are_told(&rt, rt.alloc(), service);
        levels_are_told(&rt, rt.alloc(), service);
    }
}
