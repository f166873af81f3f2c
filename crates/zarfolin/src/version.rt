// The version of the face, for whoever has a header and an archive and must know that they belong together. include/zarfolin.h has the
// same number as ZARFOLIN_VERSION, and specs/Version.antt holds it to the size of a row.
ghost use Rattle.std.specs.Prelude.{◌≡◌};
ghost use Rattle.zarfolin.specs.rule.Version.{version_number};

// The version of the face that this archive has.
pub fn zarfolin_version() -> u64
    ensures { result ≡ version_number }
{
    3
}
