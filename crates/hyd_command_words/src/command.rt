//! The commands, as their words give them.

ghost use Rattle.std.specs.Prelude.{◌≡◌, ◌≤◌, ◌≢◌, ◌^◌, [], length, option_map, unsigned_abs, AllPairs};
ghost use Rattle.hyd_command_words.specs.NamesOfLinks.{names_given};

use hyd_num::Decimal;

/// The two files of a command. Their names differ.
#[derive(Clone, Copy)]
pub struct Files<'a> {
    /// NET: the network's input file.
    pub net: &'a str,
    /// CERT: the certificate.
    pub cert: &'a str,
}

/// The names of links that `--flows IDS` gives: at most 16, and none twice. Contracts see their list, which is empty
/// where the option isn't given.
#[derive(Clone, Copy)]
pub struct LinkNames<'a> {
    /// IDS, the names between commas, where the option is given.
    pub ids: Option<&'a str>,
    pub ghost few: { length (names_given (option_map (λ text. text.now) ids)) ≤ 16 },
    pub ghost distinct: { AllPairs (λ one later. one ≢ later) (names_given (option_map (λ text. text.now) ids)) },
}

/// What `run NET CERT [--sweeps N] [--width W] [--tight] [--flows IDS] [--slack N]` asks for.
#[derive(Clone, Copy)]
pub struct RunWords<'a> {
    /// The network, which is read, and the certificate, which is written.
    pub files: Files<'a>,
    /// N: at most how many rounds a vector may take, from 0 to 100,000; 200 where it isn't given.
    pub rounds: u32,
    /// W in head ticks of 10^-13 m, from 10^4 to 10^16; 10^11, which is 0.01 m, where it isn't given.
    pub width: i64,
    /// Whether `--tight` is given.
    pub tight: bool,
    /// N of `--slack`: by at most how many seconds an end of a period may be open, from 0 to 86,400; 0 where it isn't
    /// given. No flows are asked for where it is above 0.
    pub slack: u32,
    /// The names of links that `--flows` gives.
    pub flows: LinkNames<'a>,
}

/// What `run NET CERT --spread FILE` asks for, with the options that `run` has besides, but for `--flows`.
#[derive(Clone, Copy)]
pub struct SpreadRunWords<'a> {
    /// What is asked of the run. It names no links.
    pub run: RunWords<'a>,
    /// FILE: the spread, which is read. Its name is neither that of the network nor that of the certificate, and
    /// doesn't begin with `-`.
    pub spread: &'a str,
    pub ghost without_flows: { names_given (option_map (λ text. text.now) run.flows.ids) ≡ [] },
}

/// What `check NET CERT --spread FILE` asks for.
#[derive(Clone, Copy)]
pub struct SpreadCheckWords<'a> {
    /// The network and the certificate, which are both read.
    pub files: Files<'a>,
    /// FILE: the spread, which is read. Its name is neither of the other two, and doesn't begin with `-`.
    pub spread: &'a str,
}

/// What `gen SEED JUNCTIONS NET CERT` asks for.
#[derive(Clone, Copy)]
pub struct GenWords<'a> {
    /// SEED: below 2^31.
    pub seed: u32,
    /// JUNCTIONS: from 1 to 10,000.
    pub junctions: u32,
    /// The network and the certificate, which are both written.
    pub files: Files<'a>,
}

/// What `fire NET J P [--sweeps N]` asks for.
#[derive(Clone, Copy)]
pub struct FireWords<'a> {
    /// NET: the network's input file, which is read.
    pub net: &'a str,
    /// J: the name of a junction, which may be any text.
    pub junction: &'a str,
    /// P: the target pressure in the file's pressure unit, at most 10^4 in magnitude.
    pub pressure: Decimal,
    /// N: at most how many rounds a vector may take, from 0 to 100,000; 200 where it isn't given.
    pub rounds: u32,
    pub ghost small: { unsigned_abs pressure.nano ≤ 10 ^ 13 },
}

/// What `closures NET P [--sweeps N]` asks for.
#[derive(Clone, Copy)]
pub struct ClosuresWords<'a> {
    /// NET: the network's input file, which is read.
    pub net: &'a str,
    /// P: the target pressure in the file's pressure unit, at most 10^4 in magnitude.
    pub pressure: Decimal,
    /// N: at most how many rounds a vector may take, from 0 to 100,000; 200 where it isn't given.
    pub rounds: u32,
    pub ghost small: { unsigned_abs pressure.nano ≤ 10 ^ 13 },
}

/// What `fire NET J P --spread FILE` asks for, with the option that `fire` has besides.
#[derive(Clone, Copy)]
pub struct SpreadFireWords<'a> {
    /// What is asked of `fire`.
    pub fire: FireWords<'a>,
    /// FILE: the spread, which is read. Its name isn't that of the network, and doesn't begin with `-`.
    pub spread: &'a str,
}

/// What `closures NET P --spread FILE` asks for, with the option that `closures` has besides.
#[derive(Clone, Copy)]
pub struct SpreadClosuresWords<'a> {
    /// What is asked of `closures`.
    pub closures: ClosuresWords<'a>,
    /// FILE: the spread, which is read. Its name isn't that of the network, and doesn't begin with `-`.
    pub spread: &'a str,
}

/// What `witness NET CERT OUT` asks for. No two of the names are the same.
#[derive(Clone, Copy)]
pub struct WitnessWords<'a> {
    /// The network and the certificate, which are both read.
    pub files: Files<'a>,
    /// OUT: the witness, which is written.
    pub out: &'a str,
    pub ghost apart: { files.cert.now ≢ out.now },
}

/// What `meet NET FILE` asks for. The names differ.
#[derive(Clone, Copy)]
pub struct MeetWords<'a> {
    /// NET: the network's input file, which is read.
    pub net: &'a str,
    /// FILE: the witness, which is read.
    pub witness: &'a str,
}

/// A command of the program.
#[derive(Clone, Copy)]
pub enum Command<'a> {
    /// `run NET CERT [--sweeps N] [--width W] [--tight] [--flows IDS] [--slack N]`.
    Run(RunWords<'a>),
    /// `run NET CERT --spread FILE [--sweeps N] [--width W] [--tight] [--slack N]`.
    RunOver(SpreadRunWords<'a>),
    /// `check NET CERT`: both files are read.
    Check(Files<'a>),
    /// `check NET CERT --spread FILE`: all three are read.
    CheckOver(SpreadCheckWords<'a>),
    /// `gen SEED JUNCTIONS NET CERT`.
    Gen(GenWords<'a>),
    /// `fire NET J P [--sweeps N]`.
    Fire(FireWords<'a>),
    /// `fire NET J P --spread FILE [--sweeps N]`: NET and FILE are read.
    FireOver(SpreadFireWords<'a>),
    /// `closures NET P [--sweeps N]`.
    Closures(ClosuresWords<'a>),
    /// `closures NET P --spread FILE [--sweeps N]`: NET and FILE are read.
    ClosuresOver(SpreadClosuresWords<'a>),
    /// `witness NET CERT OUT`: NET and CERT are read, and OUT is written.
    Witness(WitnessWords<'a>),
    /// `meet NET FILE`: both files are read.
    Meet(MeetWords<'a>),
}
