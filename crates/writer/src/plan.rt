// What the file will be, before a byte of it is written: how long it is doesn't depend on the order of its objects.
ghost use Rattle.std.specs.Prelude.{◌≡◌, ◌+◌, ◌-◌, ◌*◌, ◌^◌, ◌<◌, ◌≤◌, length};
ghost use Rattle.number.specs.Size.{size_of};
ghost use Rattle.writer.specs.Plan.{Foreseen};

use crate::assign::assign;
use crate::collect::collect;
use crate::measure::{Sums, measure};
use crate::words::Events;
use number::size::size_for;

// How many objects there are, the bytes of a reference, where the offset table begins, and the file's length.
#[derive(Clone, Copy)]
pub(crate) struct Plan {
    pub(crate) count: usize,
    pub(crate) width: usize,
    pub(crate) table: usize,
    pub(crate) length: usize,
}

// The columns OFF to NUM, and the plan.
pub(crate) fn plan_file(events: Events, work: &mut [u32]) -> Plan
    requires { length work.old ≡ events.n * 8 }
    ensures { Foreseen events.entry.tape.now work.new events.entry.n result }
{
    collect(events, work);
    let sums = measure(events, work);
    let count = assign(events, work);
    planned(sums, count)
}

fn planned(sums: Sums, count: usize) -> Plan
    requires { (0 < count) × (count ≤ 2 ^ 31) × (sums.bytes ≤ 2 ^ 40) × (sums.members ≤ 2 ^ 31) }
    ensures { (result.count ≡ count) × (result.width ≡ size_of (count - 1)) × (result.table ≡ 8 + sums.bytes + sums.members * result.width)
        × (result.length ≡ result.table + count * size_of result.table + 32) }
{
    let width = size_for(count as u64 - 1);
    let table = 8 + sums.bytes + sums.members * width;
    let length = table + count * size_for(table as u64) + 32;
    Plan {
        count,
        width,
        table,
        length,
    }
}
