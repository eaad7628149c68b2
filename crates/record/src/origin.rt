// Where a trap came from. The caller says it: no register does.
ghost use Rattle.std.specs.Prelude.{◌≡◌};
ghost use Rattle.record.specs.Origin.{from_aarch64};

// The execution state that the guest's code ran in.
#[derive(Clone, Copy)]
pub enum Origin {
    AArch32,
    AArch64,
}

// The one test of the origin.
pub fn from_aarch64(origin: Origin) -> bool
    ensures { result ≡ from_aarch64 origin }
{
    matches!(origin, Origin::AArch64)
}
