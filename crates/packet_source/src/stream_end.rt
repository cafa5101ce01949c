ghost use Rattle.std.specs.Prelude.{◌≡◌};
ghost use Rattle.packet_source.specs.declared.stream_end.StreamEnd.TheVariants.{Unread};

use sub_base::ReadFailed;

/// Why a source gives no packet more.
#[derive(Clone, Copy, Debug, PartialEq, Eq)]
pub enum StreamEnd {
    /// The stream has ended, with so many bytes behind its last whole packet: 0 to 187.
    Whole { cut: u64 },
    /// The source could not be read.
    Unread,
    /// The stream has more bytes than its limit.
    TooLong,
}

impl From<ReadFailed> for StreamEnd {
    ghost from_gives = { λ _ end. end ≡ Unread };

    fn from(_failed: ReadFailed) -> StreamEnd {
        StreamEnd::Unread
    }
}
