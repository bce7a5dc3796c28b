//! The order of cuts.
ghost use Rattle.std.specs.Prelude.{◌≡◌};
ghost use Rattle.cut_sets.specs.Sets.{lex, before};

// Whether list `a` is lexicographically before list `b`.
fn lex_before(a: &[u32], b: &[u32]) -> bool
    ensures { result ≡ lex a.now b.now }
{
    match a {
        [] => false,
        [x, xs @ ..] => match b {
            [] => false,
            [y, ys @ ..] => *x < *y || (*x == *y && lex_before(xs, ys)),
        },
    }
}

/// Whether cut `a` comes before cut `b`: it has fewer leaves, or as many and is lexicographically smaller.
pub fn comes_before(a: &[u32], b: &[u32]) -> bool
    ensures { result ≡ before a.now b.now }
{
    let (n, m) = (a.len(), b.len());
    if n != m {
        return n < m;
    }
    lex_before(a, b)
}
