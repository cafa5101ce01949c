ghost use Rattle.std.specs.Prelude.{◌≡◌, ◌≤◌, ◌+◌, ◌++◌, length};
ghost use Rattle.command_text.specs.Lines.{then_number};
ghost use Rattle.sub_base.specs.Which.{which_name};
ghost use Rattle.dvbsub_cmd.specs.StatusText.{kind_text, done_text as done_text_of, font_text as font_text_of, plan_text as plan_text_of, schedule_text as schedule_text_of, script_text as script_text_of, stream_text as stream_text_of, status_text, status_line as line_of_status, code_of};

use crate::kind_names::font_kind_name;
use bitmap_font::FontFault;
use command_text::Line;
use cue_list::{ScriptFault, ScriptKind};
use fault_names::packet_fault_name;
use page_epoch::PlanFault;
use schedule::ScheduleFault;
use stream_syntax::PacketFault;
use sub_base::Which;

/// How a command ended.
#[derive(Clone, Copy, Debug, PartialEq, Eq)]
pub enum Status {
    /// The inputs were read to their end, and all of the output was written. `cut` bytes were left
    /// after the last whole packet.
    Done { cut: u64 },
    /// The words are no command.
    Usage,
    /// The font is refused.
    FontRefused(FontFault),
    /// The script is refused.
    ScriptRefused(ScriptFault),
    /// The script has no plan for a receiver of the profile.
    PlanRefused(PlanFault),
    /// The schedule is refused at a set, which comes from that record of the script.
    ScheduleRefused { row: u64, fault: ScheduleFault },
    /// The packet at that place, counted from 0, is the first of the stream that cannot be taken.
    StreamRefused { packet: u64, fault: PacketFault },
    /// The source could not be read.
    ReadFault(Which),
    /// The sink could not be written.
    WriteFault(Which),
    /// No memory was found.
    Memory,
    /// The source gave more bytes than its limit.
    InputTooLong(Which),
}

impl Status {
    /// The code with which the program ends.
    pub fn code(&self) -> u8
        ensures { result ≡ code_of self.now }
    {
        match self {
            Status::Done { .. } => 0,
            Status::Usage => 2,
            Status::FontRefused(_) => 3,
            Status::ScriptRefused(_) => 3,
            Status::PlanRefused(_) => 3,
            Status::ScheduleRefused { .. } => 3,
            Status::StreamRefused { .. } => 4,
            Status::ReadFault(_) => 5,
            Status::WriteFault(_) => 6,
            Status::Memory => 7,
            Status::InputTooLong(_) => 8,
        }
    }
}

/// The line that tells the status, with its line feed.
pub fn status_line(status: Status) -> Line
    ensures { result ≡ line_of_status status }
{
    let mut line = text_of(status);
    line.push_text("\n");
    line
}

fn text_of(status: Status) -> Line
    ensures text { result ≡ status_text status }
    ensures short { length result ≤ 100 }
{
    match status {
        Status::Done { cut } => done_text(cut),
        Status::Usage => Line::of("usage"),
        Status::FontRefused(fault) => font_text(fault),
        Status::ScriptRefused(fault) => script_text(fault),
        Status::PlanRefused(fault) => plan_text(fault),
        Status::ScheduleRefused { row, fault } => schedule_text(row, fault),
        Status::StreamRefused { packet, fault } => stream_text(packet, fault),
        Status::ReadFault(which) => named_text("read ", which),
        Status::WriteFault(which) => named_text("write ", which),
        Status::Memory => Line::of("memory"),
        Status::InputTooLong(which) => named_text("long ", which),
    }
}

fn done_text(cut: u64) -> Line
    ensures text { result ≡ done_text_of cut }
    ensures short { length result ≤ 100 }
{
    if cut == 0 {
        return Line::of("done");
    }
    let mut line = Line::of("done cut");
    line.push_then_number(cut);
    line
}

fn named_text(text: &str, which: Which) -> Line
    requires { length text.now ≤ 60 }
    ensures text { result ≡ text.now ++ which_name which }
    ensures short { length result ≤ 100 }
{
    let mut line = Line::of(text);
    line.push_text(which.name());
    line
}

fn font_text(fault: FontFault) -> Line
    ensures text { result ≡ font_text_of fault }
    ensures short { length result ≤ 100 }
{
    match fault {
        // Want of memory is a status of its own; the line is the same whichever of them comes.
        FontFault::Memory => Line::of("memory"),
        FontFault::Refused { line: place, kind } => {
            let mut line = Line::of("font");
            line.push_then_number(place);
            line.push_text(" ");
            line.push_text(font_kind_name(kind));
            line
        }
    }
}

fn stream_text(packet: u64, fault: PacketFault) -> Line
    ensures text { result ≡ stream_text_of packet fault }
    ensures short { length result ≤ 100 }
{
    let mut line = Line::of("stream");
    line.push_then_number(packet);
    line.push_text(" ");
    line.push_text(packet_fault_name(fault));
    line
}

fn script_text(fault: ScriptFault) -> Line
    ensures text { result ≡ script_text_of fault }
    ensures short { length result ≤ 100 }
{
    match fault {
        ScriptFault::Memory => Line::of("memory"),
        ScriptFault::Refused { row, kind } => {
            let mut line = Line::of("script");
            line.push_then_number(row);
            line.push_text(" ");
            push_kind(&mut line, kind);
            line
        }
    }
}

fn plan_text(fault: PlanFault) -> Line
    ensures text { result ≡ plan_text_of fault }
    ensures short { length result ≤ 100 }
{
    match fault {
        PlanFault::Memory => Line::of("memory"),
        PlanFault::DisplayTooLarge { row } => {
            let mut line = Line::of("plan DisplayTooLarge");
            line.push_then_number(row);
            line
        }
        PlanFault::PixelFull { row, need } => plan_need_text("plan PixelFull", row, need),
        PlanFault::CompositionFull { row, need } => {
            plan_need_text("plan CompositionFull", row, need)
        }
    }
}

fn plan_need_text(words: &str, row: u64, need: u64) -> Line
    requires { length words.now ≤ 40 }
    ensures text { result ≡ (words.now ++ then_number row) ++ then_number need }
    ensures short { length result ≤ 100 }
{
    let mut line = Line::of(words);
    line.push_then_number(row);
    line.push_then_number(need);
    line
}

fn schedule_text(row: u64, fault: ScheduleFault) -> Line
    ensures text { result ≡ schedule_text_of row fault }
    ensures short { length result ≤ 100 }
{
    match fault {
        ScheduleFault::Memory => Line::of("memory"),
        ScheduleFault::CodedFull { size, .. } => {
            let mut line = Line::of("schedule CodedFull");
            line.push_then_number(row);
            line.push_then_number(size);
            line
        }
        ScheduleFault::Late { done, pts, .. } => {
            let mut line = Line::of("schedule Late");
            line.push_then_number(row);
            line.push_then_number(done);
            line.push_then_number(pts);
            line
        }
        ScheduleFault::SegmentFull { longest, .. } => {
            let mut line = Line::of("schedule SegmentFull");
            line.push_then_number(row);
            line.push_then_number(longest);
            line
        }
    }
}

fn push_kind(line: &mut Line, kind: ScriptKind)
    requires { length line.old ≤ 60 }
    ensures text { line.new ≡ line.old ++ kind_text kind }
    ensures short { length line.new ≤ length line.old + 34 }
{
    line.push_text(kind.name());
    if let ScriptKind::Glyph(character) = kind {
        line.push_then_number(u64::from(u32::from(character)));
    }
}
