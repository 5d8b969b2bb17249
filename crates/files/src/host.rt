//! The answer in the form that C takes; the crate `vividlawn` exports it.
ghost use Rattle.files.specs.ByModel.{AnsweredForC};

use crate::analysis::analyse;

/// The length of the report that is put first in the output, or minus the fault: layer, record and
/// number in one, as `Fault::packed` has them.
pub fn analyse_for_c(model: &[u8], output: &mut [u8]) -> i64
    ensures { AnsweredForC model.now output.old result output.new }
{
    match analyse(model, output) {
        Ok(len) => len as i64,
        Err(fault) => fault.packed(),
    }
}
