ghost use Rattle.std.specs.Prelude.{ℕ, ◌<◌};
ghost use Rattle.cut_section_laws.specs.LaidSections.{EveryLaying, EveryStream};
ghost use Rattle.cut_section_laws.specs.SectionCuts.{EveryCutting, WholeInOne};
ghost use Rattle.cut_section_laws.specs.WrittenCuts.{EveryWriting};

/// A section that is cut over packets of a PID in any way (ISO/IEC 13818-1, 2.4.4), with packets of
/// other PIDs, packets without payload and doubles anywhere between, comes out whole, once, at the
/// packet that ends it, whatever was fed before it that does not make its first packet a double.
/// Sections that stand whole in one payload, one behind another, come out at this packet, all of
/// them and in order. The sections that come out are those that `SectionReader::feed` hands on at
/// each packet.
pub fn every_cutting_gives_its_section()
    ensures whole { (pid : ℕ) → WholeInOne pid }
    ensures cut { (pid : ℕ) → EveryCutting pid }
{}

/// Sections that are laid over the packets of a stream one after another, in any way (ISO/IEC
/// 13818-1, 2.4.4), come out each once and in order, and nothing else does: those that end in the
/// stream without a loss. Lost is a section of which packets are missing or damaged, or that
/// another one or a wrong pointer breaks off. Any packets are such a stream: the sections that come
/// out of them are laid in them. They may begin within a section.
pub fn every_laying_gives_its_sections()
    ensures come { (pid : ℕ) → EveryLaying pid }
    ensures laid { (pid : ℕ) → EveryStream pid }
{}

/// A section that is written into packets of a PID, a pointer of 0 before its first piece, and
/// each further piece in a packet behind that, comes out of them, and nothing else does: whatever
/// section it is, and into whatever pieces it is cut that fit payloads.
pub fn written_sections_come()
    ensures { (pid : ℕ) → pid < 8192 → EveryWriting pid }
{}
