// mzk_write_plan: a plan as a file.
// Each list and its count comes by itself, as the C interface has it.
ghost use Rattle.std.specs.Prelude.{length};
ghost use Rattle.lent.specs.Word.{Answered};
ghost use Rattle.planfile.specs.Calls.{lent_plan, write_plan_reply};
ghost use Rattle.planfile.specs.File.{file_of};

#[unsafe(no_mangle)]
pub extern "C" fn mzk_write_plan(
    n: u32,
    order: &[u8],
    groups: &[u8],
    group_count: u32,
    file: &mut [u8],
) -> u64
    ensures { Answered (write_plan_reply n order.now groups.now group_count (length file.old)) (file_of (lent_plan n order.now groups.now group_count)) file.old result file.new }
{
    mazhoketh::write_plan::mzk_write_plan(n, order, groups, group_count, file)
}
