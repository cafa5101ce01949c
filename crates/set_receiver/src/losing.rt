ghost use Rattle.page_core.specs.Memory.{IsSameReceiver};
ghost use Rattle.set_receiver.specs.Receiving.{Loses};

use page_core::Core;

/// So many losses come, one after the other.
pub(crate) fn lose(core: &mut Core, count: u32)
    ensures loses { Loses count core.old core.new }
    ensures same { IsSameReceiver core.old core.new }
{
    for done in 0..count {
        core.lose();
    }
}
