//! The word functions of SHA-512 on vectors: each works on every lane by itself.

ghost use Rattle.std.specs.Prelude.{◌≡◌, ℕ, ◌+◌, ◌-◌, ◌/◌, ◌^◌, ◌<◌, slice_index, bit_and, bit_xor};
ghost use Rattle.std.specs.Int.{w64, rotate_right};
ghost use Rattle.sha2.specs.Sha512.{add64, big_sigma0, big_sigma1, ch, maj, small_sigma0, small_sigma1};

use std::simd::u64x4;

#[inline(always)]
pub(crate) fn splat(k: u64) -> u64x4
    ensures { (j : ℕ) → j < 4 → slice_index result j ≡ k }
{
    u64x4::splat(k)
}

#[inline(always)]
pub(crate) fn add(x: u64x4, y: u64x4) -> u64x4
    ensures { (j : ℕ) → j < 4 → slice_index result j ≡ add64 (slice_index x j) (slice_index y j) }
{
    x + y
}

#[inline(always)]
fn xor(x: u64x4, y: u64x4) -> u64x4
    ensures { (j : ℕ) → j < 4 → slice_index result j ≡ bit_xor (slice_index x j) (slice_index y j) }
{
    x ^ y
}

#[inline(always)]
fn and(x: u64x4, y: u64x4) -> u64x4
    ensures { (j : ℕ) → j < 4 → slice_index result j ≡ bit_and (slice_index x j) (slice_index y j) }
{
    x & y
}

#[inline(always)]
fn shift_right(x: u64x4, k: u64) -> u64x4
    requires { k < 64 }
    ensures { (j : ℕ) → j < 4 → slice_index result j ≡ slice_index x j / 2 ^ k }
{
    x >> u64x4::splat(k)
}

// AVX2 has no rotation: two shifts and an or.
#[inline(always)]
fn rotate_right(x: u64x4, k: u64) -> u64x4
    requires { (0 < k) × (k < 64) }
    ensures { (j : ℕ) → j < 4 → slice_index result j ≡ rotate_right w64 (slice_index x j) k }
{
    (x >> u64x4::splat(k)) | (x << u64x4::splat(64 - k))
}

// One operation fewer than the standard's form.
#[inline(always)]
pub(crate) fn ch(x: u64x4, y: u64x4, z: u64x4) -> u64x4
    ensures { (j : ℕ) → j < 4 → slice_index result j ≡ ch (slice_index x j) (slice_index y j) (slice_index z j) }
{
    xor(z, and(x, xor(y, z)))
}

// One round's `x ^ y` is the next round's `y ^ z`, so it is computed once.
#[inline(always)]
pub(crate) fn maj(x: u64x4, y: u64x4, z: u64x4) -> u64x4
    ensures { (j : ℕ) → j < 4 → slice_index result j ≡ maj (slice_index x j) (slice_index y j) (slice_index z j) }
{
    xor(y, and(xor(x, y), xor(y, z)))
}

#[inline(always)]
pub(crate) fn big_sigma0(x: u64x4) -> u64x4
    ensures { (j : ℕ) → j < 4 → slice_index result j ≡ big_sigma0 (slice_index x j) }
{
    xor(
        xor(rotate_right(x, 28), rotate_right(x, 34)),
        rotate_right(x, 39),
    )
}

#[inline(always)]
pub(crate) fn big_sigma1(x: u64x4) -> u64x4
    ensures { (j : ℕ) → j < 4 → slice_index result j ≡ big_sigma1 (slice_index x j) }
{
    xor(
        xor(rotate_right(x, 14), rotate_right(x, 18)),
        rotate_right(x, 41),
    )
}

#[inline(always)]
pub(crate) fn small_sigma0(x: u64x4) -> u64x4
    ensures { (j : ℕ) → j < 4 → slice_index result j ≡ small_sigma0 (slice_index x j) }
{
    xor(
        xor(rotate_right(x, 1), rotate_right(x, 8)),
        shift_right(x, 7),
    )
}

#[inline(always)]
pub(crate) fn small_sigma1(x: u64x4) -> u64x4
    ensures { (j : ℕ) → j < 4 → slice_index result j ≡ small_sigma1 (slice_index x j) }
{
    xor(
        xor(rotate_right(x, 19), rotate_right(x, 61)),
        shift_right(x, 6),
    )
}
