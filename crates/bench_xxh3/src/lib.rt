//! The checksum as a C function, which the benchmark `bench/xxh3.sh` calls. Proved: its answer is `xxh3` of the bytes that it is given.
#![tactic(auto)]

ghost use Rattle.std.specs.Prelude.{◌≡◌};
ghost use Rattle.nt_xxh3.specs.Sum.{xxh3};

/// `nt_xxh3::sum` of the bytes at a pointer, so many of them.
#[unsafe(no_mangle)]
pub extern "C" fn nt_xxh3_sum(bytes: &[u8]) -> u64
    ensures { result ≡ xxh3 bytes.now }
{
    nt_xxh3::sum(bytes)
}
