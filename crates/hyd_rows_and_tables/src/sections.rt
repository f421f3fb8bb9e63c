//! Which section a row stands in.
#![tactic(auto)]

ghost use Rattle.std.specs.Prelude.{◌≡◌, ◌==◌};
ghost use Rattle.hyd_spec_input.specs.SectionsAndTables.{place as section_place};

use hyd_lex::Section;

/// Whether a section is [JUNCTIONS].
pub fn is_junctions(section: Section) -> bool
    ensures { result ≡ (section_place section == 0) }
{
    match section {
        Section::Junctions => true,
        _ => false,
    }
}

/// Whether a section is [TANKS].
pub fn is_tanks(section: Section) -> bool
    ensures { result ≡ (section_place section == 2) }
{
    match section {
        Section::Tanks => true,
        _ => false,
    }
}

/// Whether a section is [DEMANDS].
pub fn is_demands(section: Section) -> bool
    ensures { result ≡ (section_place section == 6) }
{
    match section {
        Section::Demands => true,
        _ => false,
    }
}

/// Whether a section is [EMITTERS].
pub fn is_emitters(section: Section) -> bool
    ensures { result ≡ (section_place section == 7) }
{
    match section {
        Section::Emitters => true,
        _ => false,
    }
}

/// Whether a section is [CURVES].
pub fn is_curves(section: Section) -> bool
    ensures { result ≡ (section_place section == 8) }
{
    match section {
        Section::Curves => true,
        _ => false,
    }
}

/// Whether a section is [STATUS].
pub fn is_status(section: Section) -> bool
    ensures { result ≡ (section_place section == 10) }
{
    match section {
        Section::Status => true,
        _ => false,
    }
}

/// Whether a section is [CONTROLS].
pub fn is_controls(section: Section) -> bool
    ensures { result ≡ (section_place section == 11) }
{
    match section {
        Section::Controls => true,
        _ => false,
    }
}
