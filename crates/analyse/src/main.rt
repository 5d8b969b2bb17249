//! Prints the report on the model file that is standard input, or its fault.
#![tactic(auto)]

ghost use Rattle.std.specs.Prelude.{◌≡◌, IfOk, IfSome, OnOk, take};
ghost use Rattle.files.specs.Printed.{PrintsAnswer};

use files::analysis::analyse;
use files::limits::{LONGEST_REPORT, LOOKED_AT};
use std::alloc::Global;
use std::io;
use std::io::{Read, Write};

// The model file, as far as it is looked at.
fn model_file<R: Read + Drop>(alloc: Global, input: R) -> io::Result<Vec<u8>>
    ensures { IfOk result (λ model.
        IfSome (R.remaining input) (λ bytes. model.items ≡ take LOOKED_AT bytes)) }
{
    let mut model = Vec::new(alloc);
    input.take(LOOKED_AT).read_to_end(&mut model)?;
    Ok(model)
}

// Writes what the model comes to: its report, or the line of its fault.
fn answer<W: Write>(model: &[u8], page: &mut W) -> io::Result<()>
    ensures { OnOk result (PrintsAnswer model.now (W.contents page.old) (W.contents page.new)) }
{
    let mut output = [0; LONGEST_REPORT];
    match analyse(model, &mut output) {
        Ok(len) => page.write_all(&output[..len]),
        Err(fault) => writeln!(page, "{fault}"),
    }
}

// The program, from its input to its page.
fn answer_input<R: Read + Drop, W: Write>(alloc: Global, input: R, page: &mut W) -> io::Result<()>
    ensures { OnOk result (IfSome (R.remaining input) (λ bytes.
        PrintsAnswer (take LOOKED_AT bytes) (W.contents page.old) (W.contents page.new))) }
{
    let model = model_file(alloc, input)?;
    answer(&model, page)
}

fn main(rt: HostRuntime) -> io::Result<()> {
    answer_input(rt.alloc(), rt.stdin(), &mut rt.stdout())
}
