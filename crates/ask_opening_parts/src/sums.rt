// Products and sums of any numbers, tested by division: no product is worked out that might not fit.
ghost use Rattle.std.specs.Prelude.{◌≡◌, ◌+◌, ◌*◌, ◌<◌, eqb};

// Is n the product of a and b?
fn is_product(n: u64, a: u64, b: u64) -> bool
    ensures { result ≡ eqb n (a * b) }
{
    if b == 0 {
        return n == 0;
    }
    if n % b != 0 {
        return false;
    }
    n / b == a
}

// Is n the sum of c and k times a times b?
pub fn is_sum(n: u64, c: u64, k: u64, a: u64, b: u64) -> bool
    requires { 0 < k }
    ensures { result ≡ eqb n (c + k * (a * b)) }
{
    if n < c {
        return false;
    }
    let rest = n - c;
    if rest % k != 0 {
        return false;
    }
    is_product(rest / k, a, b)
}
