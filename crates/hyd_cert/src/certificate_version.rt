//! The version of a network's certificates.

ghost use Rattle.std.specs.Prelude.{◌≡◌, ◌||◌, is_some};
ghost use Rattle.hyd_spec_certificates.specs.CertificateText.{version_of};

use hyd_net::{Project, Tank};

/// The version of the network's certificates: 2 where a tank has a volume curve or overflows, else 1.
pub fn version_of(project: &Project) -> u32
    ensures { result ≡ version_of project.now }
{
    for tank in project.tanks.as_slice() {
        if is_new(tank) {
            return 2;
        }
    }
    1
}

/// Whether the tank has a volume curve or overflows.
fn is_new(tank: &Tank) -> bool
    ensures { result ≡ (is_some tank.now.shape || tank.now.overflow) }
{
    tank.shape.is_some() || tank.overflow
}
