//! Reads vectors from standard input, model files each with what is to be printed of it, and
//! compares what `analyse` says.
#![tactic(auto)]

ghost use Rattle.std.specs.Prelude.{IfOk, string_bytes};
ghost use Rattle.vectors.specs.Printed.{Prints};

mod entries;

use anyhow::bail;
use entries::Entry;
use files::analysis::analyse;
use files::limits::LONGEST_REPORT;
use std::io::Read;

// What is printed of the files: reports and faults, so many of each.
#[derive(Clone, Copy)]
struct Tally {
    reports: usize,
    faults: usize,
}

// What a model file comes to, as text: its report, or the line of its fault.
fn printed(rt: &HostRuntime, model: &[u8]) -> anyhow::Result<(bool, String)>
    ensures { IfOk result (λ t. Prints model.now t.0 (string_bytes t.1)) }
{
    let mut output = [0u8; LONGEST_REPORT];
    match analyse(model, &mut output) {
        Ok(len) => {
            let text = str::from_utf8(&output[..len])?;
            Ok((true, format!(in rt.alloc(); "{text}")?))
        }
        Err(fault) => Ok((false, format!(in rt.alloc(); "{fault}\n")?)),
    }
}

// Compares one entry, and answers whether its file has a report.
fn compare_report(rt: &HostRuntime, number: usize, entry: Entry<'_>) -> anyhow::Result<bool>
    ensures { IfOk result (λ reported.
        Prints entry.entry.model.now reported entry.entry.printed.now) }
{
    let (reported, said) = printed(rt, entry.model)?;
    let wanted = str::from_utf8(entry.printed)?;
    if said.as_str() != wanted {
        println!(rt; "analyse says:\n{said}\nthe other program says:\n{wanted}")?;
        bail!("file {number} differs");
    }
    Ok(reported)
}

fn main(rt: HostRuntime) -> anyhow::Result<()> {
    let mut bytes = Vec::new(rt.alloc());
    rt.reader().read_to_end(&mut bytes)?;
    let mut rest = bytes.as_slice();
    let mut tally = Tally {
        reports: 0,
        faults: 0,
    };
    for number in 0..bytes.len() {
        if rest.is_empty() {
            break;
        }
        let Some((entry, after)) = entries::next(rest) else {
            bail!("the vectors end within entry {number}");
        };
        if compare_report(&rt, number, entry)? {
            tally.reports += 1;
        } else {
            tally.faults += 1;
        }
        rest = after;
    }
    let Tally { reports, faults } = tally;
    let files = reports + faults;
    println!(rt;
        "{files} files, {reports} reports, {faults} faults: all as the other program says"
    )?;
    Ok(())
}
