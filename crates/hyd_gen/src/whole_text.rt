//! The text of a generated network as a whole.

ghost use Rattle.std.specs.Prelude.{◌≡◌, IfOk};
ghost use Rattle.hyd_spec_generated.specs.GeneratedText.{generated_text};

use crate::OutOfMemory;
use crate::junctions::write_junctions;
use crate::pipes::{write_pipes, write_source_pipes};
use std::alloc::Global;

/// More bytes than the lines have that are there whatever the number of junctions.
const FRAME: u64 = 300;

/// More bytes than the line of a junction and the pipes that begin there have, up to 10,000 junctions.
const EACH: u64 = 90;

/// The lines before the junctions.
const FIRST: &str =
    "[OPTIONS]\nUNITS CMD\nHEADLOSS C-M\n[TIMES]\nDURATION 24\n[PATTERNS]\n1 1 0.5 1 1.5\n[JUNCTIONS]\n";

/// The reservoir and the tank, and the heading of the pipes.
const SOURCES: &str = "[RESERVOIRS]\nR 60\n[TANKS]\nT 50 5 0 10 200 0\n[PIPES]\n";

/// The text of the network of a seed and of so many junctions, as an input file. The error comes where there is no
/// memory for it. (Numbers of the sequence are below 2^31; a larger seed draws the demands of its remainder.)
pub fn generate(alloc: Global, seed: u32, junctions: u32) -> Result<Vec<u8>, OutOfMemory>
    ensures { IfOk result (λ text. text.items ≡ generated_text seed junctions) }
{
    let count = u64::from(junctions);
    let mut text = String::with_capacity(alloc, (FRAME + EACH * count) as usize)?;
    text.push_str(FIRST)?;
    write_junctions(&mut text, seed, junctions)?;
    text.push_str(SOURCES)?;
    write_pipes(&mut text, count)?;
    write_source_pipes(&mut text, count)?;
    Ok(text.into_bytes())
}
