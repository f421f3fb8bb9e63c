//! The usage line.

ghost use Rattle.std.specs.Prelude.{◌≡◌, IfErr, OnOk, OnErr};
ghost use Rattle.hyd_io.specs.declared.output.Channel.TheVariants.{Report};
ghost use Rattle.hyd_io.specs.Output.{HasOutCause};
ghost use Rattle.hyd_io.specs.DeskBytes.{append_known, PutOut};
ghost use Rattle.hyd_cli.specs.WordsAndUsageLine.{usage_line};

use hyd_io::{Channel, Desk, OutFault, Pen};

const USAGE: &[u8] =
    b"USAGE hyd run NET CERT [--sweeps N] [--width W] [--tight] [--flows IDS] [--slack N] [--spread FILE] or check NET CERT [--spread FILE] or gen SEED JUNCTIONS NET CERT or fire NET J P [--sweeps N] [--spread FILE] or closures NET P [--sweeps N] [--spread FILE] or witness NET CERT OUT or meet NET FILE\n";

/// Prints the usage line.
pub(crate) fn print_usage<D: Desk>(desk: &mut D) -> Result<(), OutFault>
    ensures whole { OnOk result (D.printed desk.new ≡ append_known (D.printed desk.old) usage_line) }
    ensures front { OnErr result (PutOut (D.printed desk.old) (D.printed desk.new) usage_line) }
    ensures cause { IfErr result (λ fault. HasOutCause Report fault (D.counts desk.old) (D.counts desk.new)) }
    ensures steady { OnOk result (D.counts desk.new ≡ D.counts desk.old) }
    ensures files_stay { D.files desk.new ≡ D.files desk.old }
    ensures written_stays { D.written desk.new ≡ D.written desk.old }
    ensures openings_stay { D.openings desk.new ≡ D.openings desk.old }
{
    let mut pen = Pen::new(Channel::Report);
    pen.put(desk, USAGE)?;
    pen.flush(desk)
}
