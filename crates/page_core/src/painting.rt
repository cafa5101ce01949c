//! Filling of regions with the code of their depth (EN 300 743, clause 7.2.3).

ghost use Rattle.std.specs.Prelude.{◌≡◌, ◌<◌};
ghost use Rattle.sub_base.specs.Depth.{code_count};
ghost use Rattle.block_painting.specs.Writing.{IsWritten};
ghost use Rattle.decoder_model.specs.Pixels.{code_by_fill, fill_code};
ghost use Rattle.page_core.specs.Private.Painted.{HasRegion};

use crate::node::RegionNode;
use pixel_store::Store;
use stream_syntax::RegionHead;
use sub_base::Depth;

/// Fills a region with the code of its depth, where its segment says so (EN 300 743, clause 7.2.3).
pub(crate) fn fill_region(store: &mut Store, region: &RegionNode)
    requires region { HasRegion region.now.head region.now.slot store.old }
    requires code { fill_code region.now.head.depth region.now.head
        < code_count region.now.head.depth }
    ensures { IsWritten region.now.slot
        (λ x y. code_by_fill region.now.head.region region.now.head)
        store.old store.new }
{
    if region.head.fill {
        store.fill(region.slot, fill_code(region.head));
    }
}

/// The code with which a region of that depth is filled.
fn fill_code(head: RegionHead) -> u8
    ensures { result ≡ fill_code head.depth head }
{
    match head.depth {
        Depth::Two => head.code2,
        Depth::Four => head.code4,
        Depth::Eight => head.code8,
    }
}
