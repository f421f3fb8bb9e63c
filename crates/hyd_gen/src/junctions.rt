//! The lines of the junctions of a generated network, with their demands.

ghost use Rattle.std.specs.Prelude.{◌≡◌, ◌++◌, map, string_bytes, OnOk};
ghost use Rattle.std.specs.List.{flat_map};
ghost use Rattle.hyd_spec_certificates.specs.CertificateText.{line};
ghost use Rattle.hyd_spec_generated.specs.Sequence.{following, digit_of};
ghost use Rattle.hyd_spec_generated.specs.GeneratedText.{numbers, junction_with, junction_line};

use crate::OutOfMemory;

/// The number that follows a number of the sequence.
fn following(number: u32) -> u32
    ensures { result ≡ following number }
{
    ((1_103_515_245 * u64::from(number) + 12_345) % 2_147_483_648) as u32
}

/// The digit of a number of the sequence.
fn digit_of(number: u32) -> u32
    ensures { result ≡ digit_of number }
{
    number / 65_536 % 10
}

/// Writes the line of a junction with this demand.
fn write_junction(text: &mut String, i: u32, demand: u32) -> Result<(), OutOfMemory>
    ensures { OnOk result (string_bytes text.new ≡ string_bytes text.old ++ line (junction_with i demand)) }
{
    write!(text, "J{i} 0 {demand}\n")
}

/// Writes the line of each junction.
pub(crate) fn write_junctions(
    text: &mut String,
    seed: u32,
    junctions: u32,
) -> Result<(), OutOfMemory>
    ensures { OnOk result (string_bytes text.new
        ≡ string_bytes text.old ++ flat_map line (map (junction_line seed) (numbers junctions))) }
{
    let mut number = seed;
    for before in 0..junctions {
        number = following(number);
        write_junction(text, before + 1, digit_of(number))?;
    }
    Ok(())
}
