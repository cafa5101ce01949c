//! Laws of sections, over all bytes.

ghost use Rattle.std.specs.Prelude.{◌≡◌, ◌++◌, ◌<◌, ◌≤◌, ℕ, List, All, Some, length, take};
ghost use Rattle.std.specs.List.{flat_map};
ghost use Rattle.byteorder.specs.Endian.{big_bytes};
ghost use Rattle.psi_tables.specs.Crc.{crc_of};
ghost use Rattle.psi_tables.specs.Laws.{IsService};
ghost use Rattle.psi_tables.specs.Layout.{IsSection, Says, Table};
ghost use Rattle.psi_tables.specs.Sections.{Pat, SectionValue, valid_section, section_size, whole_section};
ghost use Rattle.psi_tables.specs.Services.{pid_in};
ghost use Rattle.psi_tables.specs.Writing.{pat_entry, written_pat, written_pmt};
ghost use Rattle.psi_tables.specs.declared.service.Service.{Service};

/// The CRC of bytes with their own CRC behind them is 0.
pub fn own_crc()
    ensures { (bytes : List ℕ) → crc_of (bytes ++ big_bytes 4 (crc_of bytes)) ≡ 0 }
{}

/// A section is taken exactly where its bytes have the layout of a section (ISO/IEC 13818-1, tables
/// 2-30 and 2-33), are current, and have the CRC 0: what is taken has the layout of a table with
/// the same number and the same entries or streams, and what has this layout is taken so, whatever
/// follows it.
pub fn section_laws()
    ensures laid_out { (bytes : List ℕ) (value : SectionValue) → All (λ byte. byte < 256) bytes
        → valid_section bytes ≡ Some value
        → (table : Table) × IsSection (take (section_size bytes) bytes) table
        × Says value table }
    ensures taken { (bytes more : List ℕ) (table : Table) → All (λ byte. byte < 256) bytes
        → IsSection bytes table
        → (value : SectionValue) × (valid_section (bytes ++ more) ≡ Some value)
        × Says value table }
{}

/// What was written is read again, whatever follows it: a PAT with its entries, and a PMT that
/// names the PID of its service's subtitles.
pub fn read_again()
    ensures pat { (services : List Service) (more : List ℕ) → All IsService services
        → length services ≤ 8
        → valid_section (written_pat services ++ more)
        ≡ Some (Pat 1 (flat_map pat_entry services)) }
    ensures pmt { (service : Service) (more : List ℕ) → IsService service
        → pid_in service.number (written_pmt service ++ more) ≡ Some service.pid }
    // What follows is no part of them.
    ensures whole_pat { (services : List Service) (more : List ℕ) → All IsService services
        → length services ≤ 8
        → whole_section (written_pat services ++ more) ≡ Some (written_pat services) }
    ensures whole_pmt { (service : Service) (more : List ℕ) → IsService service
        → whole_section (written_pmt service ++ more) ≡ Some (written_pmt service) }
{}
