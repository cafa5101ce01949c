ghost use Rattle.std.specs.Prelude.{◌≡◌, All, List, length, ℕ};
ghost use Rattle.std.specs.List.{concat};
ghost use Rattle.splice.specs.SplicedSets.{IsSplicing, Streams};
ghost use Rattle.splice.specs.SplicedStream.{IsShownAsBefore, IsSplicedTo};
ghost use Rattle.splice.specs.declared.splice_words.Splicing.{Splicing};

/// A receiver of two joined streams shows, with any anchor that suits their sets, before the cut
/// what the first stream shows, and from the cut on what the second shows, as long behind its
/// beginning.
pub fn spliced_is_shown()
    ensures { (splicing : Splicing) (streams : Streams) (packets : List (List ℕ))
        → IsSplicing splicing → All (λ packet. length packet ≡ 188) packets
        → IsSplicedTo splicing streams (concat packets)
        → IsShownAsBefore splicing streams packets }
{}
