ghost use Rattle.std.specs.Prelude.{◌≡◌, ◌<◌, ◌^◌, IfSome, length};
ghost use Rattle.command_words.specs.Ticks.{tick_of};
ghost use Rattle.command_words.specs.Words.{page_of, pid_of, sending_profile as profile_of_word, word_at};
ghost use Rattle.splice.specs.SpliceWords.{origin_of, splice_places, splice_words, splicing_of};
ghost use Rattle.splice.specs.SplicedSets.{IsSplicing};
ghost use Rattle.stream_syntax.specs.declared.wire.TheConstants.{NULL_PID};
ghost use Rattle.sub_base.specs.Pace.{IsSending};
ghost use Rattle.sub_base.specs.Profile.{profile_of};

use command_words::{
    InputPlaces, LATEST_TICK, are_plain, has_word, no_files, page_in, pid_in, sending_profile,
};
use stream_syntax::TIME_ROUND;
use sub_base::{ProfileName, Words, number_in};

/// How two streams are joined.
#[derive(Clone, Copy, Debug, PartialEq, Eq)]
pub struct Splicing {
    /// The profile of the receivers: one with a step.
    pub profile: ProfileName,
    /// The PID of both streams and of the joined one.
    pub pid: u16,
    /// The page of both.
    pub page: u16,
    /// The tick of 90 kHz, of 33 bits, of the first slot; lifted times of the first stream begin
    /// there.
    pub origin: u64,
    /// The tick of 90 kHz at which the second stream begins.
    pub cut: u64,
}

/// Where the names of the files stand that the words of `splice` name, counted from 0: the first
/// stream, the second, and the output. Nowhere where they are other words.
pub fn splice_inputs(words: &Words) -> InputPlaces
    ensures { result ≡ splice_places words.now }
{
    match splicing_in(words) {
        Some(_) => InputPlaces {
            first: Some(6),
            second: Some(7),
            out: Some(8),
        },
        None => no_files(),
    }
}

/// What the words `splice PROFILE PID PAGE ORIGIN CUT STREAM1 STREAM2 OUT` say, where they are such
/// words.
pub(crate) fn splicing_in(words: &Words) -> Option<Splicing>
    ensures words { result ≡ splice_words words.now }
    ensures ranges { IfSome result IsSplicing }
{
    if !are_plain(words) || words.count() != 9 || !has_word(words, 0, "splice") {
        return None;
    }
    splicing_at(words)
}

/// What the words behind the first say.
fn splicing_at(words: &Words) -> Option<Splicing>
    requires { 5 < length words.now }
    ensures words { result ≡ splicing_of words.now }
    ensures ranges { IfSome result IsSplicing }
{
    let profile = profile_at(words, 1)?;
    let pid = pid_at(words, 2)?;
    let page = page_at(words, 3)?;
    let origin = origin_at(words, 4)?;
    let cut = tick_at(words, 5)?;
    Some(Splicing {
        profile,
        pid,
        page,
        origin,
        cut,
    })
}

fn profile_at(words: &Words, place: usize) -> Option<ProfileName>
    requires { place < length words.now }
    ensures profile { result ≡ profile_of_word (word_at words.now place) }
    ensures sends { IfSome result (λ name. IsSending (profile_of name)) }
{
    sending_profile(words.word(place))
}

fn pid_at(words: &Words, place: usize) -> Option<u16>
    requires { place < length words.now }
    ensures pid { result ≡ pid_of (word_at words.now place) }
    ensures free { IfSome result (λ pid. pid < NULL_PID) }
{
    pid_in(words.word(place))
}

fn page_at(words: &Words, place: usize) -> Option<u16>
    requires { place < length words.now }
    ensures { result ≡ page_of (word_at words.now place) }
{
    page_in(words.word(place))
}

/// The tick of 33 bits that the word at a place is.
fn origin_at(words: &Words, place: usize) -> Option<u64>
    requires { place < length words.now }
    ensures tick { result ≡ origin_of (word_at words.now place) }
    ensures range { IfSome result (λ origin. origin < 2 ^ 33) }
{
    number_in(words.word(place).as_bytes(), 0, TIME_ROUND - 1)
}

/// The tick that the word at a place is.
fn tick_at(words: &Words, place: usize) -> Option<u64>
    requires { place < length words.now }
    ensures tick { result ≡ tick_of (word_at words.now place) }
    ensures range { IfSome result (λ tick. tick < 2 ^ 34) }
{
    number_in(words.word(place).as_bytes(), 0, LATEST_TICK)
}
