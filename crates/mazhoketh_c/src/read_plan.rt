// mzk_read_plan: the plan in a file.
// Each list and its count comes by itself, as the C interface has it.
ghost use Rattle.lent.specs.Word.{Answered};
ghost use Rattle.plan.specs.Groups.{flat};
ghost use Rattle.planfile.specs.Calls.{read_plan_reply};
ghost use Rattle.planfile.specs.File.{number_size, plan_from};
ghost use Rattle.words.specs.LittleEndian.{unsigned_bytes};

#[unsafe(no_mangle)]
pub extern "C" fn mzk_read_plan(file: &[u8], order: &mut [u8], groups: &mut [u8]) -> u64
    ensures order { Answered (read_plan_reply file.now order.old groups.old) (unsigned_bytes number_size (plan_from file.now).order) order.old result order.new }
    ensures groups { Answered (read_plan_reply file.now order.old groups.old) (unsigned_bytes number_size (flat (plan_from file.now).groups)) groups.old result groups.new }
{
    mazhoketh::read_plan::mzk_read_plan(file, order, groups)
}
