// For C, Rust and Python: the library's version, a hash, a whole pack scanned and searched.
#![tactic(auto)]

mod scan;

ghost use Rattle.std.specs.Prelude.{◌≡◌};
ghost use Rattle.xxh64.specs.Xxh64.{xxh64};

// VOF_VERSION of include/vof.h. It grows with each change that a caller built before would misread.
#[unsafe(no_mangle)]
pub extern "C" fn vof_version() -> u64
    ensures { result ≡ 2 }
{
    2
}

// The XXH64 of the bytes, seed 0.
#[unsafe(no_mangle)]
pub extern "C" fn vof_xxh64(s: &[u8]) -> u64
    ensures { result ≡ xxh64 s.now }
{
    xxh64::xxh64(s)
}
