//! The lines of the pipes of a generated network.

ghost use Rattle.std.specs.Prelude.{◌≡◌, ◌<◌, ◌≤◌, ◌^◌, ◌++◌, string_bytes, OnOk};
ghost use Rattle.std.specs.List.{flat_map};
ghost use Rattle.hyd_spec_certificates.specs.CertificateText.{line};
ghost use Rattle.hyd_spec_generated.specs.GeneratedText.{numbers, next_pipe, under_pipe, pipes_from, source_pipes};

use crate::OutOfMemory;

/// The number of junctions in a row.
const ROW: u64 = 50;

/// Writes the pipe to the next junction of the row, where there is one.
fn write_next_pipe(text: &mut String, junctions: u64, i: u64) -> Result<(), OutOfMemory>
    ensures { OnOk result (string_bytes text.new
        ≡ string_bytes text.old ++ flat_map line (next_pipe junctions i)) }
{
    if i % ROW == 0 || i >= junctions {
        return Ok(());
    }
    let next = i + 1;
    write!(text, "H{i} J{i} J{next} 100 300 0.01 0\n")
}

/// Writes the pipe to the junction under it, where there is one.
fn write_under_pipe(text: &mut String, junctions: u64, i: u64) -> Result<(), OutOfMemory>
    requires { i ≤ 2 ^ 32 }
    ensures { OnOk result (string_bytes text.new
        ≡ string_bytes text.old ++ flat_map line (under_pipe junctions i)) }
{
    let under = i + ROW;
    if under > junctions {
        return Ok(());
    }
    write!(text, "V{i} J{i} J{under} 100 300 0.01 0\n")
}

/// Writes the pipes that begin at each junction.
pub(crate) fn write_pipes(text: &mut String, junctions: u64) -> Result<(), OutOfMemory>
    requires { junctions < 2 ^ 32 }
    ensures { OnOk result (string_bytes text.new
        ≡ string_bytes text.old ++ flat_map line (flat_map (pipes_from junctions) (numbers junctions))) }
{
    for before in 0..junctions {
        write_next_pipe(text, junctions, before + 1)?;
        write_under_pipe(text, junctions, before + 1)?;
    }
    Ok(())
}

/// Writes the pipes of the reservoir and of the tank.
pub(crate) fn write_source_pipes(text: &mut String, junctions: u64) -> Result<(), OutOfMemory>
    ensures { OnOk result (string_bytes text.new ≡ string_bytes text.old ++ flat_map line (source_pipes junctions)) }
{
    write!(
        text,
        "PR R J1 100 300 0.01 0\nPT J{junctions} T 100 300 0.01 0\n"
    )
}
