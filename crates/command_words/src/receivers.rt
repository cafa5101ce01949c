ghost use Rattle.std.specs.Prelude.{◌≡◌};
ghost use Rattle.command_words.specs.Words.{reading_profile as any_profile_of_word, sending_profile as profile_of_word};

use sub_base::ProfileName;

/// The profile of that name, of those for which scripts are compiled.
pub fn sending_profile(word: &str) -> Option<ProfileName>
    ensures { result ≡ profile_of_word word.now }
{
    if word == "sd" {
        Some(ProfileName::Sd)
    } else if word == "hd" {
        Some(ProfileName::Hd)
    } else if word == "large" {
        Some(ProfileName::Large)
    } else {
        None
    }
}

/// The profile of that name.
pub fn reading_profile(word: &str) -> Option<ProfileName>
    ensures { result ≡ any_profile_of_word word.now }
{
    if word == "wide" {
        Some(ProfileName::Wide)
    } else {
        sending_profile(word)
    }
}
