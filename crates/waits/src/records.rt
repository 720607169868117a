// A plan's records, and where its leaves end.
ghost use Rattle.std.specs.Prelude.{◌/◌, length};
ghost use Rattle.plan.specs.Groups.{width};
ghost use Rattle.waits.specs.Code.Waits.{Recorded};

use plan::MAX_GROUPS;

// The records of its groups, one after the other, and for each leaf the access of its worker that ends it.
#[derive(Clone, Copy)]
pub struct Records<'a> {
    pub groups: &'a [u32],
    pub ends: &'a [u32; MAX_GROUPS],
    ghost recorded: { Recorded (length groups.now / width) groups.now },
}
