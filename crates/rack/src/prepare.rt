// prepare: the prepared list of a job whose lists stand in bytes.
ghost use Rattle.words.specs.LittleEndian.{unsigned, signed};
ghost use Rattle.lent.specs.Code.Nets.{net_of};
ghost use Rattle.rack.specs.Kept.{PrepareAnswered};

use answers::bytes::JobBytes;
use calls::Job;
use lent::lists::decode;
use lent::nets::SizedNet;
use lent::word::word_of;
use matrix::limits::{MAX_CELLS, MAX_ROWS, MAX_STARTS};
use plan::fields::MAX_FIELDS;

pub fn prepare_in(job: &JobBytes, out: &mut [u8]) -> u64
    ensures { PrepareAnswered (net_of job.now.net) (signed 4 job.now.movements.now) (unsigned 4 job.now.plan.order.now) (unsigned 4 job.now.plan.groups.now) job.now.plan.count
        out.old result out.new }
{
    let mut starts = [0u32; MAX_STARTS];
    let mut columns = [0u32; MAX_CELLS];
    let mut values = [0i32; MAX_CELLS];
    let mut displacements = [0i32; MAX_STARTS];
    let mut order = [0u32; MAX_ROWS];
    let mut groups = [0u32; MAX_FIELDS];
    let net = SizedNet::<MAX_CELLS> { net: job.net };
    let decoded = Job {
        matrix: net.decode(&mut starts, &mut columns, &mut values),
        displacements: decode(job.movements, &mut displacements),
        plan: job.plan.decode(&mut order, &mut groups),
    };
    word_of(preparing::prepare(&decoded, out))
}
