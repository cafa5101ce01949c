ghost use Rattle.std.specs.Prelude.{◌≡◌, ◌≤◌, length, List, Ok, Err, IfOk, IfErr};
ghost use Rattle.stream_syntax.specs.PixelBlocks.{IsBlock, IsBlockFault};
ghost use Rattle.stream_syntax.specs.declared.pixel_run.Run.{Run};
ghost use Rattle.stream_syntax.specs.declared.code_fault.CodeFault.{CodeFault};

use crate::part::part_size;
use crate::runs::Runs;
use std::marker::Model;
use stream_syntax::CodeFault;
use sub_base::Depth;

/// A pixel data block that is in the grammar, for a region of a depth. It is seen as the list of
/// its runs.
#[derive(Drop)]
pub struct CodeBlock<'a> {
    bytes: &'a [u8],
    region: Depth,
}

impl<'a> Model for CodeBlock<'a> {
    ghost use Rattle.std.specs.Prelude.{List, ◌≤◌, length};
    ghost use Rattle.stream_syntax.specs.declared.pixel_run.Run.{Run};
    ghost use Rattle.pixel_codes.specs.Private.Walk.{runs_in};

    ghost Value = { List Run };

    ghost view = { λ block. runs_in block.region block.bytes.now };

    ghost invariant = { λ block. length block.bytes.now ≤ 65535 };
}

impl<'a> CodeBlock<'a> {
    /// The runs of the block: one for each code that gives a pixel, in order.
    pub fn runs(&self) -> Runs<'_>
        ensures { result ≡ self.now }
    {
        Runs::of_block(self.bytes, self.region)
    }
}

/// Checks a pixel data block against the grammar, with no string deeper than `depth`, the region's
/// (EN 300 743, pixel-data sub-block). Else it answers the first sub-block that is not in the
/// grammar.
pub fn check_block(bytes: &[u8], depth: Depth) -> Result<CodeBlock<'_>, CodeFault>
    requires { length bytes.now ≤ 65535 }
    ensures block { IfOk result (IsBlock depth bytes.now) }
    ensures fault { IfErr result (IsBlockFault depth bytes.now) }
    // Bytes are not both, and have one list of runs or one fault.
    ensures every_block { (runs : List Run) → IsBlock depth bytes.now runs
        → result ≡ Ok runs }
    ensures every_fault { (fault : CodeFault) → IsBlockFault depth bytes.now fault
        → result ≡ Err fault }
{
    let mut place = 0;
    while place < bytes.len() {
        match part_size(bytes[place], &bytes[place + 1..], depth) {
            Ok(size) => place += size,
            Err(kind) => {
                return Err(CodeFault {
                    place: place as u32,
                    kind,
                });
            }
        }
    }
    Ok(CodeBlock {
        bytes,
        region: depth,
    })
}
