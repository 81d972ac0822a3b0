// What the problems of scripts may have.
ghost use Rattle.std.specs.Prelude.{◌≡◌};
ghost use Rattle.cyc_basics.specs.Limits.{AreLimits};
ghost use Rattle.heap_syntax.specs.Versions.{limits};
ghost use Rattle.heap_syntax.specs.declared.version.Version.TheVariants.{Three};

use cyc_basics::limits::Limits;
use heap_syntax::Version;

/// The limits of version 3 of the formats, the widest of which a problem may be.
pub fn widest_limits() -> Limits
    ensures value { result ≡ limits Three }
    ensures fits { AreLimits result }
    ensures pure { result.pure ≡ (limits Three).pure }
    ensures spatial { result.spatial ≡ (limits Three).spatial }
{
    Version::Three.limits()
}
