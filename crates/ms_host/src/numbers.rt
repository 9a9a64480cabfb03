//! Sums and round-ups of sizes and addresses of 64 bits, for the parts of initialisers; none where they pass that.
ghost use Rattle.std.specs.Prelude.{◌≤◌, ◌+◌, ℕ};
ghost use Rattle.ms_ir.specs.Layout.{round_up};
ghost use Rattle.ms_host.specs.Initial.{Reaches};

/// The sum of two numbers; none where one of them is missing, or where it takes more than 64 bits.
pub(crate) fn sum(a: Option<u64>, b: Option<u64>) -> Option<u64>
    ensures { (m n : ℕ) → Reaches a m → Reaches b n → Reaches result (m + n) }
{
    let Some(x) = a else {
        return None;
    };
    let Some(y) = b else {
        return None;
    };
    x.checked_add(y)
}

/// The least multiple of an alignment that is not below a number.
pub(crate) fn rounded(a: Option<u64>, align: u64) -> Option<u64>
    requires { 1 ≤ align }
    ensures { (n : ℕ) → Reaches a n → Reaches result (round_up n align) }
{
    let Some(x) = a else {
        return None;
    };
    let down = x / align * align;
    if down == x {
        return Some(x);
    }
    down.checked_add(align)
}
