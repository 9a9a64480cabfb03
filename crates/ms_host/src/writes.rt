//! Loops that write memory byte by byte: the fill of uninitialised bytes, one byte again and again, a list of bytes.
ghost use Rattle.std.specs.Prelude.{◌≡◌, ◌≤◌, ◌<◌, ◌+◌, ◌^◌, length, get_or, min, IsTrue};
ghost use Rattle.ms_alloc.specs.Allocations.{is_good, IsLaidOut};
ghost use Rattle.ms_bits.specs.{Maps.{with_range}, Fill.{made_byte}};
ghost use Rattle.ms_planes.specs.Memory.{bytes_of, shadow_of, origins_of};

use ms_planes::Planes;

/// Makes `size` bytes from `base` on uninitialised: they are the next ones of the fill, after the `made` uninitialised bytes that
/// the run made before.
pub(crate) fn write_unset(planes: &mut Planes, fill: &[u8], made: u64, base: u64, size: u64)
    requires filled { 0 < length fill.now }
    requires laid_out { IsLaidOut planes.old.table }
    requires good { IsTrue (is_good base size planes.old.table) }
    requires few { made + size < 2 ^ 64 }
    ensures table { planes.new.table ≡ planes.old.table }
    ensures bytes { bytes_of planes.new ≡ with_range (bytes_of planes.old) base size (λ k. made_byte fill.now (made + k)) }
    ensures shadow { shadow_of planes.new ≡ shadow_of planes.old }
    ensures origins { origins_of planes.new ≡ origins_of planes.old }
{
    planes.store_made(base, size, fill, made);
}

/// Makes each of `size` bytes from `base` on `byte`.
pub(crate) fn write_byte(planes: &mut Planes, byte: u8, base: u64, size: u64)
    requires laid_out { IsLaidOut planes.old.table }
    requires good { IsTrue (is_good base size planes.old.table) }
    ensures table { planes.new.table ≡ planes.old.table }
    ensures bytes { bytes_of planes.new ≡ with_range (bytes_of planes.old) base size (λ k. byte) }
    ensures shadow { shadow_of planes.new ≡ shadow_of planes.old }
    ensures origins { origins_of planes.new ≡ origins_of planes.old }
{
    planes.fill_bytes(base, size, byte);
}

/// Writes bytes from `base` on.
pub(crate) fn write_bytes(planes: &mut Planes, bytes: &[u8], base: u64)
    requires laid_out { IsLaidOut planes.old.table }
    requires good { IsTrue (is_good base (length bytes.now) planes.old.table) }
    ensures table { planes.new.table ≡ planes.old.table }
    ensures bytes { bytes_of planes.new ≡ with_range (bytes_of planes.old) base (length bytes.now) (λ k. get_or bytes.now k 0) }
    ensures shadow { shadow_of planes.new ≡ shadow_of planes.old }
    ensures origins { origins_of planes.new ≡ origins_of planes.old }
{
    planes.store_bytes(base, bytes);
}

/// The smaller of two numbers.
pub(crate) fn smaller(a: u64, b: u64) -> u64
    ensures { result ≡ min a b }
{
    if a < b { a } else { b }
}
