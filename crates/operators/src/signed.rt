//! The operators on bit vectors that stand for whole numbers with a sign: from 2^(width - 1) on, a value stands for itself less 2^width.
ghost use Rattle.std.specs.Prelude.{◌≡◌};
ghost use Rattle.operators.specs.code.Vectors.{Width, Word, Words, signs_differ};
ghost use Rattle.operators.specs.Values.{bvashr_value, bvsdiv_value, bvsle_value, bvslt_value, bvsmod_value, bvsrem_value, by_signs, magnitude, negative, truth};

use crate::vectors::{bvadd, bvlshr, bvneg, bvnot, bvudiv, bvurem};

// Whether the highest bit of a value is 1.
fn is_negative(width: u64, value: u64) -> bool
    requires { Width width }
    ensures { result ≡ negative width value }
{
    1 << (width - 1) <= value
}

// A value without its sign.
fn magnitude(width: u64, value: u64) -> u64
    requires { Word width value }
    ensures { result ≡ magnitude width value }
{
    if is_negative(width, value) {
        return bvneg(width, value);
    }
    value
}

// Whether the highest bits of two values differ.
fn signs_differ(width: u64, left: u64, right: u64) -> bool
    requires { Width width }
    ensures { result ≡ signs_differ width left right }
{
    is_negative(width, left) != is_negative(width, right)
}

// `bvsdiv`
pub(crate) fn bvsdiv(width: u64, left: u64, right: u64) -> u64
    requires { Words width left right }
    ensures { result ≡ bvsdiv_value width left right }
{
    let quotient = bvudiv(width, magnitude(width, left), magnitude(width, right));
    if signs_differ(width, left, right) {
        return bvneg(width, quotient);
    }
    quotient
}

// `bvsrem`
pub(crate) fn bvsrem(width: u64, left: u64, right: u64) -> u64
    requires { Words width left right }
    ensures { result ≡ bvsrem_value width left right }
{
    let rest = bvurem(magnitude(width, left), magnitude(width, right));
    if is_negative(width, left) {
        return bvneg(width, rest);
    }
    rest
}

// `bvsmod`
pub(crate) fn bvsmod(width: u64, left: u64, right: u64) -> u64
    requires { Words width left right }
    ensures { result ≡ bvsmod_value width left right }
{
    let rest = bvsrem(width, left, right);
    if (rest != 0) & signs_differ(width, left, right) {
        return bvadd(width, rest, right);
    }
    rest
}

// `bvashr`
pub(crate) fn bvashr(width: u64, left: u64, right: u64) -> u64
    requires { Word width left }
    ensures { result ≡ bvashr_value width left right }
{
    if is_negative(width, left) {
        return bvnot(width, bvlshr(width, bvnot(width, left), right));
    }
    bvlshr(width, left, right)
}

// The signed order of two values, whose order without signs is given.
fn signed_order(width: u64, left: u64, right: u64, unsigned: bool) -> u64
    requires { Width width }
    ensures { result ≡ by_signs width left right (truth unsigned) 1 0 (truth unsigned) }
{
    if signs_differ(width, left, right) {
        return u64::from(is_negative(width, left));
    }
    u64::from(unsigned)
}

// `bvslt`
pub(crate) fn bvslt(width: u64, left: u64, right: u64) -> u64
    requires { Width width }
    ensures { result ≡ bvslt_value width left right }
{
    signed_order(width, left, right, left < right)
}

// `bvsle`
pub(crate) fn bvsle(width: u64, left: u64, right: u64) -> u64
    requires { Width width }
    ensures { result ≡ bvsle_value width left right }
{
    signed_order(width, left, right, left <= right)
}
