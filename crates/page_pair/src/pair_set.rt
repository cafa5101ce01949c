ghost use Rattle.std.specs.Prelude.{◌≡◌, ◌+◌, ◌++◌, List, All, ◌≤◌, ◌^◌, OnOk, IfOk, IfErr, length, map, sum_by};
ghost use Rattle.sub_base.specs.declared.load.TheConstants.{UNIT_ROOM};
ghost use Rattle.page_pair.specs.PairSets.{Paged, first_names, in_order as in_order_of, names_of, on, pair_segments, paged_length, pairs_of, second_names};
ghost use Rattle.page_pair.specs.Private.Objects.{IsReady};
ghost use Rattle.page_pair.specs.Private.Writing.{AreWritten, IsSetStop, WritesMore, behind, clut_bytes as bytes_of, cluts_by, leading_segments};

use crate::cluts::clut_bytes;
use crate::ordering::{PagedObject, Shared, in_order};
use crate::pages::TwoPages;
use crate::set_object::Language;
use crate::sharing::{first_cues, second_cues, shared_objects};
use crate::written::Written;
use pes_packets::OTHER_BYTES;
use segments::{END_SIZE, object_size};
use std::alloc::Global;
use sub_base::{Items, NoMemory, UNIT_ROOM};

/// Why the segments of a set of two languages are not written.
#[derive(Clone, Copy, Debug, PartialEq, Eq)]
pub(crate) enum SetStop {
    /// No memory was found.
    Memory,
    /// They have no room in one PES packet, which would have so many bytes.
    TooLong { size: u64 },
}

/// The segments of the two sets that stand at one place of two plans: what both send alike is
/// written once, on the shared page. All are measured before an object is written.
#[tactic(auto, using(crate::proofs::PairSetLaws::pair_short))]
pub(crate) fn pair_set(
    alloc: Global,
    pages: TwoPages,
    one: &Language<'_>,
    two: &Language<'_>,
) -> Result<Written, SetStop>
    requires first { IsReady one.now }
    requires second { IsReady two.now }
    ensures written { IfOk result (AreWritten (pair_segments pages one.now two.now)) }
    ensures short { IfOk result (λ written. length written.bytes.items ≤ UNIT_ROOM) }
    ensures stop { IfErr result (IsSetStop (pair_segments pages one.now two.now)) }
{
    match begun(alloc, pages, one, two) {
        Ok((mut written, objects)) => match finish(&mut written, pages, objects.as_slice()) {
            Ok(()) => Ok(written),
            Err(stop) => Err(stop),
        },
        Err(_) => Err(SetStop::Memory),
    }
}

/// The segments before the objects, and the objects in their order.
#[tactic(auto, using(crate::proofs::PairSetLaws::few_cues, crate::proofs::PairSetLaws::objects_named, crate::proofs::PairSetLaws::few_objects))]
fn begun<'a>(
    alloc: Global,
    pages: TwoPages,
    one: &'a Language<'a>,
    two: &'a Language<'a>,
) -> Result<(Written, Vec<PagedObject<'a>>), NoMemory>
    requires first { IsReady one.now }
    requires second { IsReady two.now }
    ensures leading { IfOk result (λ parts. AreWritten
        (leading_segments pages (first_names one.now two.now) (second_names one.now two.now)
        one.now two.now) parts.0) }
    ensures objects { IfOk result (λ parts. parts.1.items
        ≡ in_order_of pages (first_names one.now two.now) (second_names one.now two.now)
        (pairs_of one.now two.now) one.now.objects two.now.objects) }
    ensures few { IfOk result (λ parts. length parts.1.items ≤ 8192) }
{
    let pairs = shared_objects(alloc, one.objects.as_slice(), two.objects.as_slice())?;
    let first = first_cues(alloc, pairs.as_slice())?;
    let second = second_cues(alloc, pairs.as_slice())?;
    let shared = Shared {
        pairs: pairs.as_slice(),
        first: first.as_slice(),
        second: second.as_slice(),
    };
    let written = leading_of(alloc, pages, one, two, &shared)?;
    let objects = in_order(
        alloc,
        pages,
        &shared,
        one.objects.as_slice(),
        two.objects.as_slice(),
    )?;
    Ok((written, objects))
}

/// Writes the objects and the two ends behind the segments before them, where all have room.
#[tactic(auto, using(crate::proofs::PairSetLaws::each_short))]
fn finish(
    written: &mut Written,
    pages: TwoPages,
    objects: &[PagedObject<'_>],
) -> Result<(), SetStop>
    requires few { length objects.now ≤ 8192 }
    ensures written { OnOk result (WritesMore (behind pages objects.now) written.old written.new) }
    ensures short { OnOk result ((so_far : List Paged) → AreWritten so_far written.old
        → length written.new.bytes.items ≤ UNIT_ROOM) }
    ensures stop { IfErr result (λ stop. (so_far : List Paged) → AreWritten so_far written.old
        → IsSetStop (so_far ++ behind pages objects.now) stop) }
{
    let size = size_with(written, objects);
    if size > UNIT_ROOM {
        return Err(SetStop::TooLong {
            size: size + OTHER_BYTES,
        });
    }
    match put_behind(written, pages, objects) {
        Ok(()) => Ok(()),
        Err(_) => Err(SetStop::Memory),
    }
}

/// How many bytes segments have with these objects and the two ends behind them.
fn size_with(written: &Written, objects: &[PagedObject<'_>]) -> u64
    requires few { length objects.now ≤ 8192 }
    ensures size { result ≡ length written.now.bytes.items + sum_by paged_length objects.now + 12 }
    ensures short { result ≤ 2 ^ 63 + 2 ^ 49 }
{
    written.bytes.len() as u64 + size_of(objects) + 2 * END_SIZE as u64
}

fn put_behind(
    written: &mut Written,
    pages: TwoPages,
    objects: &[PagedObject<'_>],
) -> Result<(), NoMemory>
    requires { All (λ object. paged_length object ≤ UNIT_ROOM) objects.now }
    ensures { OnOk result (WritesMore (behind pages objects.now) written.old written.new) }
{
    written.put_objects(objects)?;
    written.put_end(pages.first)?;
    written.put_end(pages.second)
}

/// The segments before the objects.
fn leading_of(
    alloc: Global,
    pages: TwoPages,
    one: &Language<'_>,
    two: &Language<'_>,
    shared: &Shared<'_>,
) -> Result<Written, NoMemory>
    requires first { IsReady one.now }
    requires second { IsReady two.now }
    requires few { length shared.now.first.now ≤ 4096 }
    requires few_second { length shared.now.second.now ≤ 4096 }
    ensures { IfOk result (AreWritten
        (leading_segments pages (names_of shared.now.first.now) (names_of shared.now.second.now)
        one.now two.now)) }
{
    let cluts = language_cluts(alloc, one)?;
    let others = language_cluts(alloc, two)?;
    let (own, other) = (cluts.as_slice(), others.as_slice());
    let mut written = Written::new(alloc);
    written.put_head(one, pages.first, shared.first)?;
    written.put_head(two, pages.second, shared.second)?;
    put_language(&mut written, one, pages.first, own, other, false)?;
    put_language(&mut written, two, pages.second, other, own, false)?;
    put_language(&mut written, one, pages.shared, own, other, true)?;
    Ok(written)
}

/// The bytes of the CLUTs of a language, each for page 0.
fn language_cluts(alloc: Global, language: &Language<'_>) -> Result<Vec<Items<u8>>, NoMemory>
    requires { IsReady language.now }
    ensures { IfOk result
        (λ bytes. bytes.items ≡ map (bytes_of language.now.epoch) language.now.set.cluts) }
{
    clut_bytes(alloc, language.epoch, language.set.cluts.as_slice())
}

/// Writes those CLUTs of a language that others are equal to, or those that none is equal to.
fn put_language(
    written: &mut Written,
    language: &Language<'_>,
    page: u16,
    own: &[Items<u8>],
    others: &[Items<u8>],
    shared: bool,
) -> Result<(), NoMemory>
    requires ready { IsReady language.now }
    requires own { own.now ≡ map (bytes_of language.now.epoch) language.now.set.cluts }
    ensures { OnOk result (WritesMore
        (map (on page) (cluts_by shared others.now language.now.epoch language.now.set.cluts))
        written.old written.new) }
{
    let cluts = language.set.cluts.as_slice();
    written.put_cluts(language.epoch, cluts, page, own, others, shared)
}

/// How many bytes objects have.
#[tactic(auto, using(crate::proofs::PairSetLaws::sum_more, crate::proofs::PairSetLaws::sum_all))]
fn size_of(objects: &[PagedObject<'_>]) -> u64
    requires { length objects.now ≤ 8192 }
    ensures size { result ≡ sum_by paged_length objects.now }
    ensures short { result ≤ 2 ^ 48 }
{
    let mut size = 0;
    for object in objects {
        size += object_bytes(object);
    }
    size
}

/// How many bytes an object has.
fn object_bytes(object: &PagedObject<'_>) -> u64
    ensures size { result ≡ paged_length object.now }
    ensures short { result ≤ 2 ^ 34 }
{
    let own = object.object;
    let (top, bottom) = own.fields();
    object_size(top.len(), bottom.len()) as u64
}
