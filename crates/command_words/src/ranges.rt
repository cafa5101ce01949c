ghost use Rattle.std.specs.Prelude.{◌≡◌, ◌≤◌, IfSome};
ghost use Rattle.command_words.specs.Words.{page_of, pid_of};

use sub_base::number_in;

/// The least PID that a command takes: those below are of tables (ISO/IEC 13818-1, table 2-3; EN
/// 300 468, table 1).
pub const LEAST_PID: u64 = 32;

/// The greatest PID that a command takes: the next one is that of null packets.
pub const GREATEST_PID: u64 = 8_190;

/// The greatest page id.
pub const GREATEST_PAGE: u64 = 65_535;

/// The latest tick that is asked for: twice round the 33 bits of a presentation time.
pub const LATEST_TICK: u64 = 17_179_869_183;

/// The most bands that a picture is drawn in.
pub const MOST_BANDS: u64 = 64;

/// The most ticks that are asked for.
pub const MOST_TICKS: usize = 1_000;

/// The PID that a word is, 32 to 8,190.
pub fn pid_in(word: &str) -> Option<u16>
    ensures pid { result ≡ pid_of word.now }
    ensures range { IfSome result (λ pid. (32 ≤ pid) × (pid ≤ 8190)) }
{
    Some(number_in(word.as_bytes(), LEAST_PID, GREATEST_PID)? as u16)
}

/// The page id that a word is, 1 to 65,535 (EN 300 743, clause 7.2.2, `page_id`).
pub fn page_in(word: &str) -> Option<u16>
    ensures page { result ≡ page_of word.now }
{
    Some(number_in(word.as_bytes(), 1, GREATEST_PAGE)? as u16)
}
