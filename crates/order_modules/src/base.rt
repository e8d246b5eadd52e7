//! The disk that the steps before tracing lead to.

ghost use Rattle.std.specs.Prelude.{◌≡◌, Ok, Err, OnOk, IfOk, IfErr};
ghost use Rattle.crash_model.specs.Trace.{base_from};
ghost use Rattle.crash_model.specs.Sound.{IsSound};
ghost use Rattle.inode_fs.specs.Inside.{HasSameJournal};
ghost use Rattle.order_modules.specs.Base.{base_refusal, disk_before_refusal, StepsMake, StepsStop};

use crash_model::refusals::TraceFault;
use crash_model::steps::{Act, Step};
use disk_image::Image;
use inode_fs::{apply, plan};
use std::alloc::Allocator;

/// Applies the operations of the steps, in order, up to the first refused step.
///
/// A refused operation changes nothing; a step on groups, one that waits and one that promises are refused, since they
/// are about traced patches. The journal is not touched, and a sound image stays sound. On a sound image each operation
/// makes the disk gain and lose what it means, and a step is refused exactly as the disk before it requires. It takes
/// no memory.
pub fn build_base<A: Allocator + Copy>(
    image: &mut Image<A>,
    steps: &[Step],
) -> Result<(), TraceFault>
    ensures built { OnOk result (base_from image.old steps.now ≡ Ok image.new) }
    ensures refused { IfErr result (λ fault. base_from image.old steps.now ≡ Err fault) }
    ensures before { image.new ≡ disk_before_refusal image.old steps.now }
    ensures journal { (image.new.journal ≡ image.old.journal) × HasSameJournal image.old image.new }
    ensures sound { IsSound image.old → IsSound image.new }
    ensures means { IsSound image.old → IfOk result (λ _. StepsMake image.old steps.now image.new) }
    ensures stops { IsSound image.old → IfErr result (λ fault. StepsStop image.old steps.now image.new fault) }
{
    for step in steps {
        let op = match &step.act {
            Act::Do(op) => op,
            _ => return Err(no_operation(step)),
        };
        match plan(image, op) {
            Ok(plan) => apply(image, &plan),
            Err(fault) => return Err(fault.at_line(step.line)),
        }
    }
    Ok(())
}

/// How a step is refused that is no operation.
fn no_operation(step: &Step) -> TraceFault
    ensures { result ≡ base_refusal step.now }
{
    let line = step.line;
    match &step.act {
        Act::Group(_) | Act::End | Act::Depend(_, _) => TraceFault::GroupFault { line },
        _ => TraceFault::OnlyAfterStart { line },
    }
}
