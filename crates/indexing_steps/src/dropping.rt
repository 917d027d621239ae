//! Entries that are let go.

ghost use Rattle.std.specs.Prelude.{◌≡◌, ◌≤◌, ◌<◌, length, OnOk};
ghost use Rattle.array_store.specs.Follows.{Holds};
ghost use Rattle.value_stack.specs.Stacks.{named_on, IsLawfulStack};
ghost use Rattle.indexing_steps.specs.Falls.{Drops, DropsBelow};

use apl_base::NoMemory;
use array_store::Store;
use pending_steps::drop_newest;
use value_stack::Stack;

/// So many of the newest entries are let go, with their leaves. The others mean what they meant.
pub fn drop_many(count: usize, stack: &mut Stack, store: &mut Store)
    requires operands { count ≤ length stack.old }
    requires lawful { IsLawfulStack store.old stack.old }
    requires held { Holds store.old (named_on stack.old) }
    ensures dropped { Drops store.old store.new stack.old stack.new count }
{
    for at in 0..count {
        drop_newest(stack, store);
    }
}

/// So many entries below the newest are let go, with their leaves. The others mean what they meant. Only where memory is
/// wanting for it the newest is gone.
pub fn drop_below(count: usize, stack: &mut Stack, store: &mut Store) -> Result<(), NoMemory>
    requires operands { count < length stack.old }
    requires lawful { IsLawfulStack store.old stack.old }
    requires held { Holds store.old (named_on stack.old) }
    ensures dropped { OnOk result (DropsBelow store.old store.new stack.old stack.new count) }
    ensures limit { store.new.limit ≡ store.old.limit }
{
    let Some(newest) = stack.pop() else {
        unreachable!()
    };
    drop_many(count, stack, store);
    stack.push(newest)
}
