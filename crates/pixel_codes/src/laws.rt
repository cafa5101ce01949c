//! Laws of pixel code strings and of the grammar of pixel data blocks (EN 300 743, pixel-data
//! sub-block), over all pixels and bytes.

ghost use Rattle.std.specs.Prelude.{◌≡◌, ◌⊎◌, ℕ, List};
ghost use Rattle.stream_syntax.specs.PixelBlocks.{AreParts, IsBlockFault, Part};
ghost use Rattle.stream_syntax.specs.declared.code_fault.CodeFault.{CodeFault};
ghost use Rattle.stream_syntax.specs.PixelCodes.{IsRowString};
ghost use Rattle.sub_base.specs.declared.depth.Depth.{Depth};

/// All bytes are sub-blocks, one after another, or have a first one that is not in the grammar.
pub fn every_block_is_read()
    ensures { (region : Depth) (bytes : List ℕ)
        → ((parts : List Part) × AreParts region parts bytes)
        ⊎ ((fault : CodeFault) × IsBlockFault region bytes fault) }
{}

/// Bytes are one list of sub-blocks at most.
pub fn one_block()
    ensures { (region : Depth) (parts others : List Part) (bytes : List ℕ)
        → AreParts region parts bytes → AreParts region others bytes → parts ≡ others }
{}

/// A row of pixels has one string at most (EN 300 743, 2-bit, 4-bit and 8-bit pixel code strings).
pub fn one_string()
    ensures { (depth : Depth) (pixels bytes others : List ℕ) → IsRowString depth pixels bytes
        → IsRowString depth pixels others → bytes ≡ others }
{}
