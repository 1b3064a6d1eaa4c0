//! The operators on bit vectors: numbers below 2^width, where the width is from 1 to 64.
ghost use Rattle.std.specs.Prelude.{◌≡◌, ◌-◌, ◌*◌, ◌%◌, ◌^◌, ◌<◌, ◌≤◌};
ghost use Rattle.operators.specs.code.Vectors.{Joined, Width, Word, Words};
ghost use Rattle.operators.specs.Values.{bvadd_value, bvand_value, bvlshr_value, bvmul_value, bvneg_value, bvnot_value, bvor_value};
ghost use Rattle.operators.specs.Values.{bvshl_value, bvsub_value, bvudiv_value, bvurem_value, bvxor_value, concat_value, extract_value};

// 2^width - 1: all ones.
pub fn ones(width: u64) -> u64
    requires { Width width }
    ensures { result ≡ 2 ^ width - 1 }
{
    u64::MAX >> (64 - width)
}

// A number modulo 2^width.
fn cut(value: u64, width: u64) -> u64
    requires { Width width }
    ensures { result ≡ value % 2 ^ width }
{
    value & ones(width)
}

// `bvnot`
pub(crate) fn bvnot(width: u64, value: u64) -> u64
    requires { Word width value }
    ensures { result ≡ bvnot_value width value }
{
    ones(width) - value
}

// `bvneg`
pub(crate) fn bvneg(width: u64, value: u64) -> u64
    requires { Word width value }
    ensures { result ≡ bvneg_value width value }
{
    if value == 0 {
        return 0;
    }
    ones(width) - (value - 1)
}

// `bvand`
pub(crate) fn bvand(left: u64, right: u64) -> u64
    ensures { result ≡ bvand_value left right }
{
    left & right
}

// `bvor`
pub(crate) fn bvor(left: u64, right: u64) -> u64
    ensures { result ≡ bvor_value left right }
{
    left | right
}

// `bvxor`
pub(crate) fn bvxor(left: u64, right: u64) -> u64
    ensures { result ≡ bvxor_value left right }
{
    left ^ right
}

// `bvadd`
pub(crate) fn bvadd(width: u64, left: u64, right: u64) -> u64
    requires { Width width }
    ensures { result ≡ bvadd_value width left right }
{
    cut(left.wrapping_add(right), width)
}

// `bvsub`
pub(crate) fn bvsub(width: u64, left: u64, right: u64) -> u64
    requires { Words width left right }
    ensures { result ≡ bvsub_value width left right }
{
    if right <= left {
        return left - right;
    }
    ones(width) - (right - left - 1)
}

// `bvmul`
pub(crate) fn bvmul(width: u64, left: u64, right: u64) -> u64
    requires { Width width }
    ensures { result ≡ bvmul_value width left right }
{
    cut(left.wrapping_mul(right), width)
}

// `bvudiv`
pub(crate) fn bvudiv(width: u64, left: u64, right: u64) -> u64
    requires { Width width }
    ensures { result ≡ bvudiv_value width left right }
{
    if right == 0 {
        return ones(width);
    }
    left / right
}

// `bvurem`
pub(crate) fn bvurem(left: u64, right: u64) -> u64
    ensures { result ≡ bvurem_value left right }
{
    if right == 0 {
        return left;
    }
    left % right
}

// `bvshl`
pub(crate) fn bvshl(width: u64, left: u64, right: u64) -> u64
    requires { Width width }
    ensures { result ≡ bvshl_value width left right }
{
    if width <= right {
        return 0;
    }
    cut(left << right, width)
}

// `bvlshr`
pub(crate) fn bvlshr(width: u64, left: u64, right: u64) -> u64
    requires { Width width }
    ensures { result ≡ bvlshr_value width left right }
{
    if right < width {
        return left >> right;
    }
    0
}

// `concat`, of the operand `high` of width `first` and the operand `low` of width `second`.
pub(crate) fn concat(first: u64, second: u64, high: u64, low: u64) -> u64
    requires { Joined first second high low }
    ensures { result ≡ concat_value second high low }
{
    (high << second) | low
}

// `(_ extract high low)`
pub(crate) fn extract(high: u64, low: u64, value: u64) -> u64
    requires { (low ≤ high) × (high < 64) }
    ensures { result ≡ extract_value high low value }
{
    cut(value >> low, high - low + 1)
}
