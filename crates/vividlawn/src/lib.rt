//! The library for C; include/vividlawn.h declares it, and says what a host has to see to.
#![tactic(auto)]

ghost use Rattle.files.specs.ByModel.{AnsweredForC};

use files::host::analyse_for_c;

/// The length in bytes of the report on the model file, which is put first in the output.
///
/// Or minus the fault: layer · 65536 + record · 256 + number. The output is then as it was, also
/// where it has no room for the report.
#[unsafe(no_mangle)]
pub extern "C" fn vividlawn_analyse(model: &[u8], output: &mut [u8]) -> i64
    ensures { AnsweredForC model.now output.old result output.new }
{
    analyse_for_c(model, output)
}
