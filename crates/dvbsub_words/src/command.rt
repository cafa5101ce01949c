ghost use Rattle.std.specs.Prelude.{◌≡◌, IfSome};
ghost use Rattle.std.specs.Option.{option_or};
ghost use Rattle.dvbsub_words.specs.Command.{command_of as command_of_words, check_of as check_of_words, compile_of as compile_of_words, dump_of as dump_of_words, expect_of as expect_of_words, font_place as font_place_of, gen_of as gen_of_words, generating_profile as small_profile_of_word, list_of as list_of_words, named_command, places_of, IsInRange};

use command_words::{
    InputPlaces, MOST_BANDS, are_plain, has_ticks, has_word, names_font, no_files, page_in, pid_in,
    reading_profile, sending_profile,
};
use cue_list::LATEST_ORIGIN;
use sub_base::{ProfileName, Words, number_in};

/// The most cues of a script that is generated.
pub const MOST_GENERATED: u64 = 500;

/// How many words `dump` has before its ticks, and how many `expect`.
pub const WORDS_OF_DUMP: usize = 7;

pub const WORDS_OF_EXPECT: usize = 4;

/// A command with its words read.
#[derive(Clone, Copy, Debug)]
pub enum Command {
    /// Compiles a script to packets of that PID, whose segments are of that page.
    Compile {
        /// The receiver that the packets are made for.
        profile: ProfileName,
        /// The PID of the packets.
        pid: u16,
        /// The page id of the segments.
        page: u16,
        /// Whether a font is named, the second source.
        has_font: bool,
    },
    /// Lists the losses, units and segments of that PID in a stream.
    List {
        /// The PID of the packets that are looked at.
        pid: u16,
    },
    /// Writes the pictures that a receiver shows of a stream at the ticks that are asked for.
    Dump {
        /// What the receiver has.
        profile: ProfileName,
        /// The PID of the packets that it takes.
        pid: u16,
        /// The page id of the segments that it takes.
        page: u16,
        /// In how many bands it draws its pictures, 1 to 64.
        bands: u32,
    },
    /// Writes what becomes of each display set of a stream, and the levels of the coded data
    /// buffer.
    Check {
        /// What the receiver has.
        profile: ProfileName,
        /// The tick at which the first packet arrives, and lifted times begin.
        origin: u64,
        /// The PID of the packets that it takes.
        pid: u16,
        /// The page id of the segments that it takes.
        page: u16,
    },
    /// Writes the authored pictures of a script at the ticks that are asked for.
    Expect {
        /// Whether a font is named, the second source.
        has_font: bool,
    },
    /// Generates a script, compiles it, receives its packets, and writes how large they are and
    /// where receivers enter.
    Gen {
        /// How many cues the script has, 1 to 500.
        number: u64,
        /// The receiver that the packets are made for.
        profile: ProfileName,
    },
}

/// Where the names of the files stand that the command of these words reads and writes: nowhere
/// where the words are no command, and no second one where a command names no font.
pub fn inputs(words: &Words) -> InputPlaces
    ensures { result ≡ places_of (command_of_words words.now) }
{
    match command_of(words) {
        None => no_files(),
        Some(Command::Compile { has_font, .. }) => InputPlaces {
            first: Some(4),
            second: font_place(has_font, 5),
            out: Some(6),
        },
        Some(Command::List { .. }) => InputPlaces {
            first: Some(2),
            second: None,
            out: Some(3),
        },
        Some(Command::Dump { .. }) => InputPlaces {
            first: Some(5),
            second: None,
            out: Some(6),
        },
        Some(Command::Check { .. }) => InputPlaces {
            first: Some(5),
            second: None,
            out: Some(6),
        },
        Some(Command::Expect { has_font }) => InputPlaces {
            first: Some(1),
            second: font_place(has_font, 2),
            out: Some(3),
        },
        Some(Command::Gen { .. }) => InputPlaces {
            first: None,
            second: None,
            out: Some(3),
        },
    }
}

fn font_place(has_font: bool, place: usize) -> Option<usize>
    ensures { result ≡ font_place_of has_font place }
{
    if has_font { Some(place) } else { None }
}

/// The command that the words are, if they are one.
#[tactic(auto, unfolding(crate::specs::Command::command_of))]
pub fn command_of(words: &Words) -> Option<Command>
    ensures command { result ≡ command_of_words words.now }
    ensures range { IfSome result (IsInRange words.now) }
{
    if are_plain(words) { named(words) } else { None }
}

/// The command that plain words are, if they are one.
pub fn named(words: &Words) -> Option<Command>
    ensures command { result ≡ named_command words.now }
    ensures range { IfSome result (IsInRange words.now) }
{
    match compile_of(words) {
        Some(command) => Some(command),
        None => list_or_others_of(words),
    }
}

/// The command `compile PROFILE PID PAGE SCRIPT FONT OUT`.
fn compile_of(words: &Words) -> Option<Command>
    ensures command { result ≡ compile_of_words words.now }
    ensures range { IfSome result (IsInRange words.now) }
{
    if words.count() != 7 || !has_word(words, 0, "compile") {
        return None;
    }
    let profile = sending_profile(words.word(1))?;
    let pid = pid_in(words.word(2))?;
    let page = page_in(words.word(3))?;
    Some(Command::Compile {
        profile,
        pid,
        page,
        has_font: names_font(words.word(5)),
    })
}

fn list_or_others_of(words: &Words) -> Option<Command>
    ensures command { result ≡ option_or (list_of_words words.now)
        (option_or (dump_of_words words.now)
        (option_or (check_of_words words.now)
        (option_or (expect_of_words words.now) (gen_of_words words.now)))) }
    ensures range { IfSome result (IsInRange words.now) }
{
    match list_of(words) {
        Some(command) => Some(command),
        None => dump_or_others_of(words),
    }
}

fn dump_or_others_of(words: &Words) -> Option<Command>
    ensures command { result ≡ option_or (dump_of_words words.now)
        (option_or (check_of_words words.now)
        (option_or (expect_of_words words.now) (gen_of_words words.now))) }
    ensures range { IfSome result (IsInRange words.now) }
{
    match dump_of(words) {
        Some(command) => Some(command),
        None => check_or_others_of(words),
    }
}

fn check_or_others_of(words: &Words) -> Option<Command>
    ensures command { result ≡ option_or (check_of_words words.now)
        (option_or (expect_of_words words.now) (gen_of_words words.now)) }
    ensures range { IfSome result (IsInRange words.now) }
{
    match check_of(words) {
        Some(command) => Some(command),
        None => expect_or_gen_of(words),
    }
}

fn expect_or_gen_of(words: &Words) -> Option<Command>
    ensures command { result ≡ option_or (expect_of_words words.now) (gen_of_words words.now) }
    ensures range { IfSome result (IsInRange words.now) }
{
    match expect_of(words) {
        Some(command) => Some(command),
        None => gen_of(words),
    }
}

/// The command `list PID STREAM OUT`.
fn list_of(words: &Words) -> Option<Command>
    ensures command { result ≡ list_of_words words.now }
    ensures range { IfSome result (IsInRange words.now) }
{
    if words.count() != 4 || !has_word(words, 0, "list") {
        return None;
    }
    let pid = pid_in(words.word(1))?;
    Some(Command::List { pid })
}

/// The command `dump PROFILE PID PAGE BANDS STREAM OUT TICK...`.
fn dump_of(words: &Words) -> Option<Command>
    ensures command { result ≡ dump_of_words words.now }
    ensures range { IfSome result (IsInRange words.now) }
{
    if !has_ticks(words, WORDS_OF_DUMP) || !has_word(words, 0, "dump") {
        return None;
    }
    let profile = reading_profile(words.word(1))?;
    let pid = pid_in(words.word(2))?;
    let page = page_in(words.word(3))?;
    let bands = number_in(words.word(4).as_bytes(), 1, MOST_BANDS)? as u32;
    Some(Command::Dump {
        profile,
        pid,
        page,
        bands,
    })
}

/// The command `check PROFILE ORIGIN PID PAGE STREAM OUT`.
fn check_of(words: &Words) -> Option<Command>
    ensures command { result ≡ check_of_words words.now }
    ensures range { IfSome result (IsInRange words.now) }
{
    if words.count() != 7 || !has_word(words, 0, "check") {
        return None;
    }
    let profile = sending_profile(words.word(1))?;
    let origin = number_in(words.word(2).as_bytes(), 0, LATEST_ORIGIN)?;
    let pid = pid_in(words.word(3))?;
    let page = page_in(words.word(4))?;
    Some(Command::Check {
        profile,
        origin,
        pid,
        page,
    })
}

/// The command `expect SCRIPT FONT OUT TICK...`.
fn expect_of(words: &Words) -> Option<Command>
    ensures command { result ≡ expect_of_words words.now }
    ensures range { IfSome result (IsInRange words.now) }
{
    if !has_ticks(words, WORDS_OF_EXPECT) || !has_word(words, 0, "expect") {
        return None;
    }
    Some(Command::Expect {
        has_font: names_font(words.word(2)),
    })
}

/// The command `gen N PROFILE OUT`.
fn gen_of(words: &Words) -> Option<Command>
    ensures command { result ≡ gen_of_words words.now }
    ensures range { IfSome result (IsInRange words.now) }
{
    if words.count() != 4 || !has_word(words, 0, "gen") {
        return None;
    }
    let number = number_in(words.word(1).as_bytes(), 1, MOST_GENERATED)?;
    let profile = generating_profile(words.word(2))?;
    Some(Command::Gen { number, profile })
}

/// The profile of that name, of those for which scripts are generated.
fn generating_profile(word: &str) -> Option<ProfileName>
    ensures { result ≡ small_profile_of_word word.now }
{
    if word == "sd" {
        Some(ProfileName::Sd)
    } else if word == "hd" {
        Some(ProfileName::Hd)
    } else {
        None
    }
}
