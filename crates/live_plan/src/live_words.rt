ghost use Rattle.std.specs.Prelude.{◌≡◌, ◌<◌, IfSome, length};
ghost use Rattle.live_plan.specs.LiveWords.{IsLiveCommand, live_command_of, live_font_place, live_places, live_words};

use command_words::{
    InputPlaces, are_plain, has_word, names_font, no_files, page_in, pid_in, sending_profile,
};
use sub_base::{ProfileName, Words};

/// For whom a script is sent while it is written.
#[derive(Clone, Copy, Debug, PartialEq, Eq)]
pub struct LiveCommand {
    /// The profile of the receivers: one with a step.
    pub profile: ProfileName,
    /// The PID of the packets.
    pub pid: u16,
    /// The page of the service.
    pub page: u16,
    /// Whether a font is named.
    pub has_font: bool,
}

/// Where the names of the files stand that the words of `live` name, counted from 0: the script,
/// the font, where one is named, and the output. Nowhere where they are other words.
pub fn live_inputs(words: &Words) -> InputPlaces
    ensures { result ≡ live_places words.now }
{
    match live_command_in(words) {
        Some(command) => InputPlaces {
            first: Some(4),
            second: font_place(command.has_font),
            out: Some(6),
        },
        None => no_files(),
    }
}

fn font_place(has_font: bool) -> Option<usize>
    ensures { result ≡ live_font_place has_font }
{
    if has_font { Some(5) } else { None }
}

/// What the words `live PROFILE PID PAGE SCRIPT FONT OUT` say, where they are such words.
pub(crate) fn live_command_in(words: &Words) -> Option<LiveCommand>
    ensures words { result ≡ live_words words.now }
    ensures ranges { IfSome result IsLiveCommand }
{
    if !are_plain(words) || words.count() != 7 || !has_word(words, 0, "live") {
        return None;
    }
    live_command_at(words)
}

/// What the words behind the first say.
fn live_command_at(words: &Words) -> Option<LiveCommand>
    requires { 5 < length words.now }
    ensures words { result ≡ live_command_of words.now }
    ensures ranges { IfSome result IsLiveCommand }
{
    let profile = sending_profile(words.word(1))?;
    let pid = pid_in(words.word(2))?;
    let page = page_in(words.word(3))?;
    Some(LiveCommand {
        profile,
        pid,
        page,
        has_font: names_font(words.word(5)),
    })
}
