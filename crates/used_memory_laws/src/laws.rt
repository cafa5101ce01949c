//! Laws on the memory that a known epoch needs, over all sets and losses.

ghost use Rattle.std.specs.Prelude.{◌≡◌, ◌≤◌, ◌+◌, ℕ, List, ◌∷◌, Some};
ghost use Rattle.decoder_model.specs.Contents.{page_in_set};
ghost use Rattle.decoder_model.specs.Free.{free_nodes_after, free_pixels_after};
ghost use Rattle.decoder_model.specs.Free.{nodes_held, pixels_held};
ghost use Rattle.decoder_model.specs.Nodes.{nodes_of, pixels_used};
ghost use Rattle.decoder_model.specs.Readings.{Content, Reading};
ghost use Rattle.decoder_model.specs.Sets.{Delivery};
ghost use Rattle.decoder_model.specs.Taken.{segments_of, taken_of};
ghost use Rattle.decoder_model.specs.Verdict.{known_epoch};
ghost use Rattle.stream_syntax.specs.Segments.{Page};
ghost use Rattle.sub_base.specs.declared.profile.Profile.{Profile};

/// Whatever sets and losses a receiver of any profile was handed: while an epoch is known, the
/// pixels of its regions need at most the profile's bytes. The last of its sets has a page, and
/// with that page its composition needs at most the profile's nodes. So what is in use and what is
/// free are all of the memory.
pub fn known_epochs_fit()
    ensures pixels { (profile : Profile) (anchor : ℕ) (past : List (Delivery Reading))
        (sets : List (List Content)) → known_epoch profile anchor past ≡ Some sets
        → pixels_used (taken_of (segments_of sets)) ≤ profile.pixels }
    ensures nodes { (profile : Profile) (anchor : ℕ) (past : List (Delivery Reading))
        (sets : List (List Content)) → known_epoch profile anchor past ≡ Some sets
        → (set : List Content) × (before : List (List Content)) × (page : Page)
        × (sets ≡ set ∷ before) × (page_in_set set ≡ Some page)
        × (nodes_of (taken_of (segments_of sets)) page ≤ profile.nodes) }
    ensures all_pixels { (profile : Profile) (anchor : ℕ) (past : List (Delivery Reading))
        → pixels_held (known_epoch profile anchor past) + free_pixels_after profile anchor past
        ≡ profile.pixels }
    ensures all_nodes { (profile : Profile) (anchor : ℕ) (past : List (Delivery Reading))
        → nodes_held (known_epoch profile anchor past) + free_nodes_after profile anchor past
        ≡ profile.nodes }
{}
