// The leaves as C functions: compare/ calls them beside Rust.
#![tactic(auto)]

ghost use Rattle.std.specs.Prelude.{◌≡◌};
ghost use Rattle.std.specs.Float.{binary64};
ghost use Rattle.std.specs.Float.Ieee.{of_bits};
ghost use Rattle.numeric.specs.Remainder as Rule;
ghost use Rattle.ast.specs.File.{read_tree};
ghost use Rattle.ast.specs.inner.Answer.{answer_of};
ghost use Rattle.ast.specs.inner.Under.{plain_of};
ghost use Rattle.numeric.specs.Index.{index_of};
ghost use Rattle.numeric.specs.inner.OrMax.{or_max, has_index};
ghost use Rattle.numeric.specs.inner.Patterns.{bits_of};

use lent::refusal;

#[unsafe(no_mangle)]
pub extern "C" fn leaf_has_index(x: f64) -> bool
    ensures { result ≡ has_index (index_of x) }
{
    numeric::index_of(x).is_some()
}

// 2^64 - 1 where there is none.
#[unsafe(no_mangle)]
pub extern "C" fn leaf_index_of(x: f64) -> u64
    ensures { result ≡ or_max (index_of x) }
{
    numeric::index_of(x).unwrap_or(18446744073709551615)
}

#[unsafe(no_mangle)]
pub extern "C" fn leaf_bits_of(x: f64) -> u64
    ensures { result ≡ bits_of x }
{
    numeric::bits_of(x)
}

#[unsafe(no_mangle)]
pub extern "C" fn leaf_from_bits(n: u64) -> f64
    ensures { result ≡ of_bits binary64 n }
{
    numeric::from_bits(n)
}

#[unsafe(no_mangle)]
pub extern "C" fn leaf_modu(a: f64, b: f64) -> f64
    ensures { result ≡ Rule.modu a b }
{
    numeric::modu(a, b)
}

#[unsafe(no_mangle)]
pub extern "C" fn leaf_read(file: &[u8]) -> u64
    ensures { result ≡ answer_of (read_tree file.now) }
{
    refusal::number_of(ast::read(file))
}

#[unsafe(no_mangle)]
pub extern "C" fn leaf_plain(file: &[u8]) -> bool
    ensures { result ≡ plain_of (read_tree file.now) }
{
    ast::plain::plain(file)
}
