// Remainders and products by adding and subtracting (document 02, K5): the cheapest board has a slow multiplier and no divider. The loops stand
// for the operators that the library has.
ghost use Rattle.std.specs.Prelude.{◌≡◌, ◌+◌, ◌*◌, ◌%◌, ◌^◌, ◌<◌, ◌≤◌};

// x modulo n: n is subtracted as often as it goes.
pub fn reduced(x: usize, n: usize) -> usize
    requires { 0 < n }
    ensures { result ≡ x % n }
{
    let mut rest = x;
    while rest >= n {
        rest = rest - n;
    }
    rest
}

// x + step modulo n, for x below n and a step not above it: one subtraction of n is enough.
pub fn stepped(x: usize, step: usize, n: usize) -> usize
    requires { (x < n) × (step ≤ n) }
    ensures { result ≡ (x + step) % n }
{
    let back = n - step;
    if x >= back { x - back } else { x + step }
}

// n times x, by doubling and adding: bit by bit of n.
pub fn times(n: usize, x: usize) -> usize
    requires { (n < 2 ^ 16) × (x < 2 ^ 32) }
    ensures { result ≡ n * x }
{
    let mut sum = 0;
    let mut left = n;
    let mut part = x;
    while left > 0 {
        if left % 2 == 1 {
            sum = sum + part;
        }
        left = left / 2;
        part = 2 * part;
    }
    sum
}
